//! The fixed part of a picture: its title, and how its classes look.

/// What stands for the picture's own name in the texts below.
pub(crate) const PLACE: u8 = b'~';

/// The beginning, up to what depends on the picture.
pub(crate) const OPENING: &str = "<svg xmlns='http://www.w3.org/2000/svg' role='img' class='~'";

/// The title, and how each class looks: colours that the colour-blind can tell apart (Okabe and Ito's), a pattern besides, and a
/// background as the reader's. Each rule and each pattern is the picture's own, so that it changes nothing of a page that holds it.
pub(crate) const STYLE: &str = "<title>A run, tick by tick</title>
<style>
.~{font:13px monospace;fill:#000}
.~ .paper{fill:#fff}
.~ .grid{stroke:#bbb}
.~ .name{text-anchor:end}
.~ .time,.~ .who{text-anchor:middle}
.~ .who{fill:#000;stroke:#fff;stroke-width:3px;stroke-linejoin:round;paint-order:stroke}
.~ rect{stroke:#fff}
.~ .burns{fill:#d55e00}
.~ .waits{fill:url(#~-waits)}
.~ .sleeps{fill:url(#~-sleeps)}
.~ .listed{fill:url(#~-listed)}
.~ .inactive{fill:url(#~-inactive)}
.~ .timed{fill:url(#~-timed)}
.~ .armed{fill:url(#~-armed)}
.~ .deferred{fill:url(#~-deferred)}
.~ .lasts{fill:#999}
.~ .gap{fill:url(#~-gap);stroke:none}
@media (prefers-color-scheme:dark){.~{fill:#eee}.~ .paper{fill:#161616}.~ .grid{stroke:#555}.~ rect{stroke:#161616}}
</style>
<defs>
<pattern id='~-waits' width='7' height='7' patternUnits='userSpaceOnUse'><path fill='#e69f00' d='M0 0h7v7H0z'/><path stroke='#000' d='M0 7L7 0'/></pattern>
<pattern id='~-sleeps' width='5' height='5' patternUnits='userSpaceOnUse'><path fill='#56b4e9' d='M0 0h5v5H0z'/><path fill='#000' d='M2 2h1v1H2z'/></pattern>
<pattern id='~-listed' width='5' height='5' patternUnits='userSpaceOnUse'><path fill='#f0e442' d='M0 0h5v5H0z'/><path stroke='#000' d='M0 2.5h5'/></pattern>
<pattern id='~-inactive' width='7' height='7' patternUnits='userSpaceOnUse'><path fill='#cc79a7' d='M0 0h7v7H0z'/><path stroke='#000' d='M0 0L7 7M0 7L7 0'/></pattern>
<pattern id='~-timed' width='5' height='5' patternUnits='userSpaceOnUse'><path fill='#009e73' d='M0 0h5v5H0z'/><path stroke='#000' d='M2.5 0v5'/></pattern>
<pattern id='~-armed' width='7' height='7' patternUnits='userSpaceOnUse'><path fill='#009e73' d='M0 0h7v7H0z'/><path stroke='#fff' d='M0 0L7 7'/></pattern>
<pattern id='~-deferred' width='7' height='7' patternUnits='userSpaceOnUse'><path fill='#0072b2' d='M0 0h7v7H0z'/><path stroke='#fff' d='M0 3.5h7M3.5 0v7'/></pattern>
<pattern id='~-gap' width='6' height='6' patternUnits='userSpaceOnUse'><path stroke='#888' stroke-width='2' d='M0 6L6 0M-2 2L2 -2M4 8L8 4'/></pattern>
</defs>
<rect class='paper' width='100%' height='100%'><title>A run, tick by tick</title></rect>
";
