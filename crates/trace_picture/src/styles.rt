//! The parts of a picture's text that are the same in each.

ghost use Rattle.std.specs.Prelude.{◌≡◌};
ghost use Rattle.trace_picture.specs.Styles.{dark_text, legend_text, light_text};

/// The colours on a light page, and the style of texts.
#[tactic(auto, unfolding(crate::specs::Styles::light_text))]
pub fn light_text() -> &'static str
    ensures { result.now ≡ light_text }
{
    "<style>
text { font-family: system-ui, sans-serif; fill: #1f2328 }
svg svg { overflow: visible }
.box { overflow: hidden }
.box text { text-anchor: middle; dominant-baseline: central }
.side { text-anchor: end; dominant-baseline: central }
.tick { text-anchor: middle }
.page { fill: #ffffff }
.lane { fill: #eef1f4 }
.grid { stroke: #d1d9e0 }
.given { fill: #b6d7ff; stroke: #0550ae }
.back { fill: #ffd8b5; stroke: #bc4c00 }
.unended { fill: none; stroke: #0550ae; stroke-dasharray: 3 2 }
#copy { fill: #1a7f37 }
#back { stroke: #bc4c00; stroke-width: 2 }
.line { fill: none; stroke: #8250df; stroke-width: 2 }
"
}

/// The colours on a dark page.
#[tactic(auto, unfolding(crate::specs::Styles::dark_text))]
pub fn dark_text() -> &'static str
    ensures { result.now ≡ dark_text }
{
    "@media (prefers-color-scheme: dark) {
text { fill: #f0f6fc }
.page { fill: #0d1117 }
.lane { fill: #21262d }
.grid { stroke: #3d444d }
.given { fill: #1b3f72; stroke: #79c0ff }
.back { fill: #6b3410; stroke: #ffa657 }
.unended { stroke: #79c0ff }
#copy { fill: #56d364 }
#back { stroke: #ffa657 }
.line { stroke: #d2a8ff }
}
</style>
"
}

/// The shapes of marks, the page and the legend; the picture itself is in the element that it
/// opens.
#[tactic(auto, unfolding(crate::specs::Styles::legend_text))]
pub fn legend_text() -> &'static str
    ensures { result.now ≡ legend_text }
{
    "<defs>
<path id=\"copy\" d=\"M5 21l4 4l-4 4l-4-4z\"/>
<path id=\"back\" d=\"M2 22l6 6m0-6l-6 6\"/>
</defs>
<rect class=\"page\" width=\"100%\" height=\"100%\"/>
<svg x=\"8em\" y=\"1em\">
<rect class=\"given\" width=\"3em\" height=\"1.2em\"/><text x=\"3.5em\" y=\"1em\">claim to give</text>
<rect class=\"back\" x=\"12em\" width=\"3em\" height=\"1.2em\"/><text x=\"15.5em\" y=\"1em\">claim to back</text>
<rect class=\"unended\" x=\"24em\" width=\"3em\" height=\"1.2em\"/><text x=\"27.5em\" y=\"1em\">no end</text>
<use href=\"#copy\" x=\"34em\" y=\"-1.9em\"/><text x=\"35.5em\" y=\"1em\">copy</text>
<use href=\"#back\" x=\"40em\" y=\"-1.9em\"/><text x=\"41.5em\" y=\"1em\">back</text>
<path class=\"line\" d=\"M460 6h20\"/><text x=\"48.5em\" y=\"1em\">in progress</text>
</svg>
<svg x=\"8em\" y=\"6em\">
"
}
