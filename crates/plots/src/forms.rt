// The text of a picture, from its beginning to its end. Each % stands for a value.

// The beginning: the size, the title, and of a description in one line for those who do not see the
// picture the part in exact steps.
pub(crate) const HEAD: &str = "<?xml version=\"1.0\" encoding=\"UTF-8\"?>
<svg xmlns=\"http://www.w3.org/2000/svg\" width=\"900\" height=\"%\" viewBox=\"0 0 900 %\">
<title>%</title>
<desc>rank %; window %; exact % points %";

// The part of a bound.
pub(crate) const DESCRIBED: &str = "; % % points %; drawn % of % test points by the %";

// The end of the description, and how lines, marks and texts look: lines are told apart by dashes and
// widths, marks by shapes and sizes, and lanes of marks by their names.
pub(crate) const LOOKS: &str = "</desc>
<style>
text { font: 13px sans-serif; fill: #000 }
.head { font-size: 16px }
.small { font-size: 10px }
.label { font-weight: bold; stroke: #fff; stroke-width: 4px; stroke-linejoin: round; paint-order: stroke }
path { fill: none; stroke: #000 }
.grid { stroke: #ddd; stroke-width: 0.7 }
.axis { stroke-width: 1.2 }
.service { stroke-width: 0.9 }
.window { stroke-width: 1.6; stroke-dasharray: 1.6 3.4 }
.exact { stroke: #12408c; stroke-width: 2.8; stroke-linejoin: miter }
";

// The line and the test points of a bound.
pub(crate) const BOUNDED_LOOKS: &str =
    ".bounded% { stroke: %; stroke-width: 1.7; stroke-dasharray: 8 4% }
.diamond% { fill: %; stroke: none }
";

// The test points and the first rest in exact steps.
pub(crate) const EXACT_LOOKS: &str = ".stroke { stroke: #12408c; stroke-width: 1.6 }
circle.rest { fill: #12408c; stroke: #fff; stroke-width: 1 }
";

// The first rest by a bound.
pub(crate) const REST_LOOKS: &str = "rect.rest% { fill: none; stroke: %; stroke-width: 2 }
";

// The frame and the title.
pub(crate) const FRAME: &str = "</style>
<clipPath id=\"frame\"><rect x=\"90\" y=\"62\" width=\"722\" height=\"361\"/></clipPath>
<rect width=\"900\" height=\"%\" fill=\"#fff\"/>
<text class=\"head\" x=\"450\" y=\"30\" text-anchor=\"middle\">%</text>
";

// A mark of the axis of time, in ticks, and one of the axis of work, in ticks of the processor.
pub(crate) const TIME: &str = "<path class=\"grid\" d=\"M% 422.0V62.0\"/>
<text x=\"%\" y=\"%\" text-anchor=\"middle\">%</text>
";

pub(crate) const WORK: &str = "<path class=\"grid\" d=\"M90.0 %H810.0\"/>
<text x=\"84.0\" y=\"%\" dy=\"4\" text-anchor=\"end\">%</text>
";

// The axes, the line of service, the end of the window, and the beginning of the exact steps. Curves are
// drawn inside the frame alone.
pub(crate) const AXES: &str = "<path class=\"axis\" d=\"M90.0 62.0V422.0H810.0\"/>
<text x=\"450\" y=\"%\" text-anchor=\"middle\">time, ticks</text>
<text transform=\"translate(14 242) rotate(-90)\" text-anchor=\"middle\">work, ticks</text>
<path class=\"service\" d=\"M90.0 422.0L810.0 %\"/>
<path class=\"window\" d=\"M810.0 422.0V62.0\"/>
<text x=\"810.0\" y=\"56\" text-anchor=\"end\">window %</text>
<g clip-path=\"url(#frame)\">
<path class=\"exact\" d=\"M90.0 %";

// One of the exact steps, and the beginning of the demand by a bound.
pub(crate) const STEP: &str = "V%H%";

pub(crate) const BOUNDED: &str = "\"/>
<path class=\"bounded%\" d=\"M90.0 %";

// The demand by a bound at an instant, and where it is higher just after it.
pub(crate) const LINE: &str = "L% %";

pub(crate) const RISE: &str = "V%";

// The end of both demands.
pub(crate) const DRAWN: &str = "\"/>
</g>
";

// What a lane of marks is for.
pub(crate) const LANE: &str =
    "<text class=\"small\" x=\"84.0\" y=\"%\" dy=\"%\" text-anchor=\"end\">%</text>
";

// The beginning of the test points by a bound, a diamond for each, and what stands behind them.
pub(crate) const DIAMONDS: &str = "<path class=\"diamond%\" d=\"";

pub(crate) const DIAMOND: &str = "M% %l3.5 4.5l-3.5 4.5l-3.5 -4.5z";

pub(crate) const MARKED: &str = "\"/>
";

// The same in exact steps: a stroke for each.
pub(crate) const STROKES: &str = "<path class=\"stroke\" d=\"";

pub(crate) const STROKE: &str = "M% %v7";

// The label of a first rest.
pub(crate) const LABEL: &str =
    "<text class=\"label\" x=\"%\" y=\"%\" dx=\"%\" dy=\"%\" text-anchor=\"%\">% %</text>
";

// The first rest in exact steps, a filled circle, and by a bound, an open square.
pub(crate) const CIRCLE: &str = "<circle class=\"rest\" cx=\"%\" cy=\"%\" r=\"5\"/>
";

pub(crate) const SQUARE: &str = "<rect class=\"rest%\" x=\"%\" y=\"%\" width=\"%\" height=\"%\"/>
";

// What the lines mean, in words below the picture on the left: exact steps, a bound, and the others.
pub(crate) const EXACT_LINE: &str = "<path class=\"exact\" d=\"M90 %h44\"/>
<text x=\"144\" y=\"%\" dy=\"4\">demand in exact steps</text>
";

pub(crate) const BOUNDED_LINE: &str = "<path class=\"bounded%\" d=\"M90 %h44\"/>
<text x=\"144\" y=\"%\" dy=\"4\">demand by the %, %</text>
";

pub(crate) const OTHER_LINES: &str = "<path class=\"service\" d=\"M90 %h44\"/>
<text x=\"144\" y=\"%\" dy=\"4\">service: work = time</text>
<path class=\"window\" d=\"M90 %h44\"/>
<text x=\"144\" y=\"%\" dy=\"4\">window: deadline less jitter</text>
";

// What is found by a count, on the right, and its test points: by a bound, and in exact steps.
pub(crate) const FOUND: &str = "<text x=\"470\" y=\"%\" dy=\"4\">%: %%, points tested %</text>
";

pub(crate) const BOUNDED_POINTS: &str =
    "<text x=\"470\" y=\"%\" dy=\"4\">test points by the %, % of % drawn</text>
";

pub(crate) const EXACT_POINTS: &str =
    "<text x=\"470\" y=\"%\" dy=\"4\">test points in exact steps, % drawn</text>
";

pub(crate) const END: &str = "</svg>
";
