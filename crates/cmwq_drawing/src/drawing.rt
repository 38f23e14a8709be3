//! What is asked of a drawing.

/// What is drawn of a scenario, and how.
#[derive(Clone, Copy, PartialEq, Eq)]
pub struct Drawing<'a> {
    /// Whether the run goes on until the machine is quiet, as with `settled`.
    pub settle: bool,
    /// Whether ticks at which nothing changes are folded, though there is room for all of them.
    pub fold: bool,
    /// Which ticks are drawn.
    pub span: Span,
    /// The names of the works whose rows are drawn, with a comma between two; all where it isn't given.
    pub works: Option<&'a str>,
    /// What it is drawn as.
    pub form: Form<'a>,
}

/// Which ticks are drawn: those of the run from `from` on, before `to`.
#[derive(Clone, Copy, PartialEq, Eq)]
pub struct Span {
    /// The time of the first one, in ticks; the run's first where it isn't given.
    pub from: Option<u64>,
    /// The time before which the last one begins; the run's end where it isn't given.
    pub to: Option<u64>,
}

/// What a run is drawn as.
#[derive(Clone, Copy, PartialEq, Eq)]
pub enum Form<'a> {
    /// As text.
    Text,
    /// As an SVG picture.
    Svg(Style<'a>),
}

/// How an SVG picture looks.
#[derive(Clone, Copy, PartialEq, Eq)]
pub struct Style<'a> {
    /// How wide a tick is, in pixels, from 1 to 100; 10 where it isn't given.
    pub scale: Option<u32>,
    /// The picture's own name, which its style and patterns go by in the page that holds it; `cmwq` where it isn't given.
    pub id: Option<&'a str>,
}
