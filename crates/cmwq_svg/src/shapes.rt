//! The shapes of a picture, each in a line.
ghost use Rattle.cmwq_svg.specs.Svg.{area, attribute, class, grid_line, head, rectangle, sign_class, sizes, view_box, with_id, words};
ghost use Rattle.std.specs.Prelude.{◌≡◌, ◌++◌, OnOk, Some};

use crate::style::{OPENING, PLACE, STYLE};
use cmwq_picture::{Cell, Sign};
use cmwq_types::NoMemory;
use std::alloc::Global;
use std::fmt;

/// The part of the plane that is shown.
#[derive(Clone, Copy)]
struct ViewBox {
    width: u128,
    height: u128,
}

impl fmt::Display for ViewBox {
    ghost output = { λ v. Some (view_box v.width v.height) };

    #[tactic(auto, unfolding(crate::specs::Svg::view_box))]
    fn fmt<W: fmt::Write>(&self, f: &mut fmt::Formatter<W>) -> fmt::Result {
        let ViewBox { width, height } = *self;
        write!(f, " viewBox='0 0 {width} {height}'>\n")
    }
}

/// How large a picture is.
#[derive(Clone, Copy)]
struct Sizes {
    width: u128,
    height: u128,
}

impl fmt::Display for Sizes {
    ghost output = { λ s. Some (sizes s.width s.height) };

    #[tactic(auto, unfolding(crate::specs::Svg::sizes))]
    fn fmt<W: fmt::Write>(&self, f: &mut fmt::Formatter<W>) -> fmt::Result {
        let Sizes { width, height } = *self;
        let view = ViewBox { width, height };
        let width = Attribute::new("width", width);
        let height = Attribute::new("height", height);
        write!(f, "{width}{height}{view}")
    }
}

/// Writes the beginning of the picture of this name: how large it is, and how its parts look.
pub(crate) fn push_head(
    alloc: Global,
    text: &mut Vec<u8>,
    id: &[u8],
    width: u128,
    height: u128,
) -> Result<(), NoMemory>
    ensures { OnOk result (text.new.items ≡ text.old.items ++ head id.now width height) }
{
    let sizes = Sizes { width, height };
    let sizes = sizes.to_string(alloc)?;
    push_with_id(text, id, OPENING.as_bytes())?;
    text.extend_from_slice(sizes.as_bytes())?;
    push_with_id(text, id, STYLE.as_bytes())
}

/// Writes a text in which the picture's own name stands for each `PLACE`.
#[tactic(auto, unfolding(crate::specs::Svg::with_id))]
fn push_with_id(text: &mut Vec<u8>, id: &[u8], template: &[u8]) -> Result<(), NoMemory>
    ensures { OnOk result (text.new.items ≡ text.old.items ++ with_id id.now template.now) }
{
    for byte in template {
        if *byte == PLACE {
            text.extend_from_slice(id)?;
        } else {
            text.push(*byte)?;
        }
    }
    Ok(())
}

/// An attribute that is a number.
#[derive(Clone, Copy)]
struct Attribute {
    name: &'static str,
    value: u128,
}

impl Attribute {
    fn new(name: &'static str, value: u128) -> Attribute
        ensures name { result.name.now ≡ name.entry.now }
        ensures value { result.value ≡ value }
    {
        Attribute { name, value }
    }
}

impl fmt::Display for Attribute {
    ghost output = { λ a. Some (attribute a.name.now a.value) };

    #[tactic(auto, unfolding(crate::specs::Svg::attribute))]
    fn fmt<W: fmt::Write>(&self, f: &mut fmt::Formatter<W>) -> fmt::Result {
        let Attribute { name, value } = *self;
        write!(f, " {name}='{value}'")
    }
}

/// Where something stands, and how large it is.
#[derive(Clone, Copy)]
pub(crate) struct Area {
    pub(crate) x: u128,
    pub(crate) y: u128,
    pub(crate) width: u128,
    pub(crate) height: u128,
}

impl fmt::Display for Area {
    ghost output = { λ a. Some (area a.x a.y a.width a.height) };

    #[tactic(auto, unfolding(crate::specs::Svg::area))]
    fn fmt<W: fmt::Write>(&self, f: &mut fmt::Formatter<W>) -> fmt::Result {
        let x = Attribute::new("x", self.x);
        let y = Attribute::new("y", self.y);
        let width = Attribute::new("width", self.width);
        let height = Attribute::new("height", self.height);
        write!(f, "{x}{y}{width}{height}")
    }
}

/// A rectangle, and what is told where a reader points at it.
#[derive(Clone, Copy)]
pub(crate) struct Rectangle<'a> {
    pub(crate) class: &'static str,
    pub(crate) area: Area,
    pub(crate) title: &'a str,
}

impl fmt::Display for Rectangle<'_> {
    ghost output = { λ r. Some (rectangle r.class.now r.area.x r.area.y r.area.width r.area.height r.title.now) };

    #[tactic(auto, unfolding(crate::specs::Svg::rectangle))]
    fn fmt<W: fmt::Write>(&self, f: &mut fmt::Formatter<W>) -> fmt::Result {
        let class = self.class;
        let area = self.area;
        let title = self.title;
        write!(
            f,
            "<rect class='{class}'{area}><title>{title}</title></rect>\n"
        )
    }
}

/// A text.
#[derive(Clone, Copy)]
pub(crate) struct PlacedText<'a> {
    pub(crate) class: &'static str,
    pub(crate) x: u128,
    pub(crate) y: u128,
    pub(crate) text: &'a str,
}

impl fmt::Display for PlacedText<'_> {
    ghost output = { λ w. Some (words w.class.now w.x w.y w.text.now) };

    #[tactic(auto, unfolding(crate::specs::Svg::words))]
    fn fmt<W: fmt::Write>(&self, f: &mut fmt::Formatter<W>) -> fmt::Result {
        let class = self.class;
        let x = Attribute::new("x", self.x);
        let y = Attribute::new("y", self.y);
        let text = self.text;
        write!(f, "<text class='{class}'{x}{y}>{text}</text>\n")
    }
}

/// A line from the times down to the lower edge of the rows.
#[derive(Clone, Copy)]
pub(crate) struct GridLine {
    pub(crate) x: u128,
    pub(crate) bottom: u128,
}

impl fmt::Display for GridLine {
    ghost output = { λ l. Some (grid_line l.x l.bottom) };

    #[tactic(auto, unfolding(crate::specs::Svg::grid_line))]
    fn fmt<W: fmt::Write>(&self, f: &mut fmt::Formatter<W>) -> fmt::Result {
        let GridLine { x, bottom } = *self;
        write!(f, "<path class='grid' d='M{x} 22V{bottom}'/>\n")
    }
}

/// How a cell is filled, by the style's name for it.
pub(crate) fn class_of(cell: Cell) -> &'static str
    ensures { result.now ≡ class cell }
{
    match cell {
        Cell::Does(sign) => sign_class(sign),
        Cell::Burner(_) => "burns",
        Cell::Acts => "acts",
        Cell::Lasts => "lasts",
        Cell::Armed(_) => "armed",
        Cell::Empty => "",
    }
}

fn sign_class(sign: Sign) -> &'static str
    ensures { result.now ≡ sign_class sign }
{
    match sign {
        Sign::Burns => "burns",
        Sign::Waits => "waits",
        Sign::Sleeps => "sleeps",
        Sign::Listed => "listed",
        Sign::Inactive => "inactive",
        Sign::Timed => "timed",
        Sign::Deferred => "deferred",
    }
}
