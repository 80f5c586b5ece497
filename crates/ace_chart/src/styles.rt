// How the classes of a chart look: the colours are those of Okabe and Ito, some darker for print,
// and each is told again by a dash, a width or words.
ghost use Rattle.std.specs.Prelude.{◌≡◌, ◌++◌, OnOk, codes};
ghost use Rattle.ace_chart.specs.Styles.{bar_styles, hatch, hatch_lines, hatch_size, hatch_start, hatches, head, head_end, head_size, head_start, heads, message_styles, styles, text_styles};

use ace_io::NoMemory;
use ace_svg::push;

/// How words look.
#[tactic(auto, unfolding(crate::specs::Styles::text_styles))]
fn text_styles() -> &'static [u8]
    ensures { result.now ≡ text_styles }
{
    b"<style>\n\
text{font:12px DejaVu Sans,Helvetica,Arial,sans-serif;fill:#1a1a1a}\n\
text.heading{font-size:16px;font-weight:bold}\n\
text.verdict,text.kind{fill:#595959}\n\
text.name,text.kind,text.state,text.label,text.stop-label{text-anchor:middle}\n\
text.name,text.state,text.wrong{font-weight:bold}\n\
text.kind,text.sample{font-size:10px}\n\
text.number{font:10.5px DejaVu Sans Mono,monospace;fill:#595959;text-anchor:end}\n\
text.state{font-size:8.5px;stroke:#fff;stroke-width:2;paint-order:stroke}\n\
text.label,text.stop-label,text.beside,text.stop-beside{font-size:11px;stroke:#fff;stroke-width:3;paint-order:stroke}\n\
text.stop-label,text.stop-beside,text.wrong{fill:#b00020}\n\
text.time{font:10px DejaVu Sans Mono,monospace;fill:#595959}\n\
text.gap{font-size:9px;fill:#595959}\n\
text.value{font:10px DejaVu Sans Mono,monospace}\n\
text.reason{font-size:10px;fill:#b00020;text-anchor:end;stroke:#fff;stroke-width:3;paint-order:stroke}\n"
}

/// How bars, bands and squares look.
#[tactic(auto, unfolding(crate::specs::Styles::bar_styles))]
fn bar_styles() -> &'static [u8]
    ensures { result.now ≡ bar_styles }
{
    b".page{fill:#fff}\n\
.head{fill:#f2f2f2;stroke:#1a1a1a}\n\
.lifeline{stroke:#bdbdbd}\n\
.UC{fill:#56b4e9}\n\
.SC{fill:#bfe3f7}\n\
.UD{fill:url(#UD)}\n\
.SD{fill:url(#SD)}\n\
.grant{fill:#ffe680}\n\
.current{fill:#b8b8b8}\n\
.behind{fill:url(#behind)}\n\
.band{fill:#fbe3e6;stroke:#b00020}\n\
.granting{fill:#7a6200}\n\
.local{fill:#1a1a1a}\n"
}

/// How arrows look.
#[tactic(auto, unfolding(crate::specs::Styles::message_styles))]
fn message_styles() -> &'static [u8]
    ensures { result.now ≡ message_styles }
{
    b"line.address{stroke:#0072b2;stroke-width:1.8;marker-end:url(#address)}\n\
line.data{stroke:#007a5a;stroke-width:3;marker-end:url(#data)}\n\
line.snoop{stroke:#8a3a8a;stroke-width:1.8;stroke-dasharray:2 2.5;marker-end:url(#snoop)}\n\
line.response{stroke:#4d4d4d;stroke-width:1.3;stroke-dasharray:6 3;marker-end:url(#response)}\n\
line.memory{stroke:#5a3e00;stroke-width:3;stroke-dasharray:9 2;marker-end:url(#memory)}\n\
line.stop{stroke:#b00020;stroke-width:2.6;marker-end:url(#stop)}\n\
line.gap{stroke:#8c8c8c;stroke-dasharray:2 4}\n\
line.reason{marker-end:url(#stop)}\n\
rect.memory{fill:#5a3e00}\n\
rect.stop{fill:#b00020}\n\
</style>\n"
}

/// The size of the head of an arrow, between its name and its colour.
#[tactic(auto, unfolding(crate::specs::Styles::head_size))]
fn head_size() -> &'static [u8]
    ensures { result.now ≡ head_size }
{
    b"\" viewBox=\"0 0 10 10\" refX=\"9\" refY=\"5\" markerWidth=\"9\" markerHeight=\"9\" markerUnits=\"userSpaceOnUse\" orient=\"auto\"><path d=\"M0 1L10 5L0 9z\" fill=\""
}

/// The size of a hatch, between its name and its colour.
#[tactic(auto, unfolding(crate::specs::Styles::hatch_size))]
fn hatch_size() -> &'static [u8]
    ensures { result.now ≡ hatch_size }
{
    b"\" width=\"6\" height=\"6\" patternUnits=\"userSpaceOnUse\"><rect width=\"6\" height=\"6\" fill=\""
}

/// The lines of a hatch, behind its colour.
#[tactic(auto, unfolding(crate::specs::Styles::hatch_lines))]
fn hatch_lines() -> &'static [u8]
    ensures { result.now ≡ hatch_lines }
{
    b"\"/><path d=\"M0 6L6 0\" stroke=\"#8f3f00\" stroke-width=\"1.4\"/></pattern>\n"
}

/// The beginning of the head of an arrow.
#[tactic(auto, unfolding(crate::specs::Styles::head_start))]
fn head_start() -> &'static [u8]
    ensures { result.now ≡ head_start }
{
    b"<marker id=\""
}

/// Its end.
#[tactic(auto, unfolding(crate::specs::Styles::head_end))]
fn head_end() -> &'static [u8]
    ensures { result.now ≡ head_end }
{
    b"\"/></marker>\n"
}

/// The beginning of a hatch.
#[tactic(auto, unfolding(crate::specs::Styles::hatch_start))]
fn hatch_start() -> &'static [u8]
    ensures { result.now ≡ hatch_start }
{
    b"<pattern id=\""
}

/// Adds the head of the arrows of a class.
#[tactic(auto, unfolding(crate::specs::Styles::head))]
fn push_head(text: &mut Vec<u8>, class: &[u8], colour: &[u8]) -> Result<(), NoMemory>
    ensures { OnOk result (text.new.items ≡ text.old.items ++ head class.now colour.now) }
{
    push(text, head_start())?;
    push(text, class)?;
    push(text, head_size())?;
    push(text, colour)?;
    push(text, head_end())
}

/// Adds the heads of all arrows.
#[tactic(auto, unfolding(crate::specs::Styles::heads))]
fn push_heads(text: &mut Vec<u8>) -> Result<(), NoMemory>
    ensures { OnOk result (text.new.items ≡ text.old.items ++ heads) }
{
    push_head(text, b"address", b"#0072b2")?;
    push_head(text, b"data", b"#007a5a")?;
    push_head(text, b"snoop", b"#8a3a8a")?;
    push_head(text, b"response", b"#4d4d4d")?;
    push_head(text, b"memory", b"#5a3e00")?;
    push_head(text, b"stop", b"#b00020")
}

/// Adds the hatch of a class.
#[tactic(auto, unfolding(crate::specs::Styles::hatch))]
fn push_hatch(text: &mut Vec<u8>, class: &[u8], colour: &[u8]) -> Result<(), NoMemory>
    ensures { OnOk result (text.new.items ≡ text.old.items ++ hatch class.now colour.now) }
{
    push(text, hatch_start())?;
    push(text, class)?;
    push(text, hatch_size())?;
    push(text, colour)?;
    push(text, hatch_lines())
}

/// Adds the hatches: of the dirty states, and of memory that may be behind.
#[tactic(auto, unfolding(crate::specs::Styles::hatches))]
fn push_hatches(text: &mut Vec<u8>) -> Result<(), NoMemory>
    ensures { OnOk result (text.new.items ≡ text.old.items ++ hatches) }
{
    push_hatch(text, b"UD", b"#e69f00")?;
    push_hatch(text, b"SD", b"#f6d79b")?;
    push_hatch(text, b"behind", b"#fff")
}

/// Adds how all classes look.
#[tactic(auto, unfolding(crate::specs::Styles::styles))]
pub(crate) fn push_styles(text: &mut Vec<u8>) -> Result<(), NoMemory>
    ensures { OnOk result (text.new.items ≡ text.old.items ++ styles) }
{
    push(text, text_styles())?;
    push(text, bar_styles())?;
    push(text, message_styles())?;
    push_heads(text)?;
    push_hatches(text)
}
