//! The style sheet of all pictures.

/// The name space of SVG.
pub const NAME_SPACE: &str = "http://www.w3.org/2000/svg";

/// How shapes are painted, a class for each paint. What is X's is dark and what is Y's is light,
/// also where it is printed in grey; pairs differ in their hue and in their dash, attacks and
/// replies in theirs. A line darkens what it crosses, so that no mark is hidden. Numbers are 11
/// units high, those of cells 8.5 and close, so that one of three digits has room between a
/// diagonal and a column; weights and nodes are 13 units high, the legend 12, marks 18 and the
/// heading 16.
pub const STYLE: &str = "
rect,circle{stroke:#444;stroke-width:1}
line,path{fill:none;stroke:#444;stroke-width:2}
text{font:11px sans-serif;text-anchor:middle;fill:#222}
.free,.vertex{fill:#fff}
.of-x{fill:#7fa8d8}
.of-y{fill:#f8cfae}
.terminal{fill:#bbb}
line.terminal{stroke:#bbb;stroke-width:8}
.line{fill:#999;stroke:#999;stroke-width:1;mix-blend-mode:darken}
.edge{fill:none;stroke:#999;stroke-width:2}
.edge-of-x{fill:none;stroke:#2f5f98;stroke-width:6}
.edge-of-y{fill:none;stroke:#e8a878;stroke-width:3;stroke-dasharray:2 4}
.pair-0{fill:none;stroke:#c00000;stroke-width:3}
.pair-1{fill:none;stroke:#0060c0;stroke-width:3;stroke-dasharray:12 3}
.pair-2{fill:none;stroke:#008030;stroke-width:3;stroke-dasharray:6 3}
.pair-3{fill:none;stroke:#8000a0;stroke-width:3;stroke-dasharray:2 2}
.pair-4{fill:none;stroke:#a06000;stroke-width:3;stroke-dasharray:12 3 2 3}
.pair-5{fill:none;stroke:#008080;stroke-width:3;stroke-dasharray:6 3 2 3}
.pair-6{fill:none;stroke:#c00070;stroke-width:3;stroke-dasharray:12 3 2 3 2 3}
.pair-7{fill:none;stroke:#404040;stroke-width:3;stroke-dasharray:2 6}
.first{fill:none;stroke:#0060c0;stroke-width:4}
.second{fill:none;stroke:#c06000;stroke-width:4;stroke-dasharray:8 4}
.extra{fill:none;stroke:#606060;stroke-width:2;stroke-dasharray:2 3}
.step{fill:none;stroke:#8000a0;stroke-width:3}
.answer{fill:none;stroke:#a06000;stroke-width:2;stroke-dasharray:3 2}
.move{fill:none;stroke:#008030;stroke-width:4}
.reply{fill:none;stroke:#c00070;stroke-width:2;stroke-dasharray:4 3}
.fault{fill:none;stroke:#e00000;stroke-width:6}
.ground,.plate{fill:#fff;stroke:none}
text.corner{font-size:8.5px;letter-spacing:-.5px;fill:#555;text-anchor:end}
text.mark{font-size:18px;font-weight:bold}
text.weight{font-size:13px;font-weight:bold}
text.move,text.reply{font-size:13px;fill:#222;stroke:none}
text.legend,text.heading{text-anchor:start}
text.legend{font-size:12px}
text.heading{font-size:16px}
";
