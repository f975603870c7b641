//! What charts say of their signs, and how they say what texts say.

use std::alloc::AllocError;

/// What all charts say of their signs.
pub(crate) const STYLE: &str =
    "<style>text{font-family:Helvetica,Arial,sans-serif;font-size:10px}.n{fill:#777}.t{font-size:11px;text-anchor:end;font-weight:bold}\
     .l{fill:#666;font-size:9px;paint-order:stroke;stroke:#f2f4f6;stroke-width:3px}.b{fill:#fff;text-anchor:middle;font-weight:bold}\
     .q{fill:#8d3b70;font-weight:bold}.r{stroke:#9aa4ad;stroke-width:2}.w{stroke:#777;stroke-width:1.5;stroke-dasharray:2 3}\
     .f{stroke:#d02f2f;stroke-width:2;stroke-dasharray:6 3}.g{stroke:#bbb}.k{stroke:#aaa;stroke-dasharray:1 3}.i{stroke:#8d3b70;stroke-width:1.5}\
     .o{fill:#fff;fill-opacity:.75}</style>\n";

/// What charts with words of the world say of their signs besides.
pub(crate) const WORLD_STYLE: &str =
    "<style>.v{stroke:#8d3b70;stroke-width:1.5}.y{stroke:#8d3b70;stroke-dasharray:1 3}</style>\n";

/// What the signs of words mean, below the others.
pub(crate) const WORLD_LEGEND: &str =
    "<text class=\"n\" x=\"0\" y=\"25\">arrow down: the world writes a word; arrow up: it reads one; curve: the word as it was last written or read</text>";

/// What the bars of interrupts mean, beside that.
pub(crate) const ANSWER_LEGEND: &str =
    "<rect x=\"600\" y=\"21\" width=\"22\" height=\"3\" fill=\"#8d3b70\"/><text class=\"n\" x=\"628\" y=\"25\">from an interrupt until its part waits again: \
     instructions, and how many at most</text>";

/// What the signs mean, from the height of their bars on.
pub(crate) const LEGEND: &str =
    "<rect x=\"0\" y=\"0\" width=\"22\" height=\"14\" fill=\"#3b78b5\"/><text x=\"28\" y=\"11\">runs</text><path class=\"r\" d=\"M70 7H96\"/>\
     <text x=\"102\" y=\"11\">ready</text><path class=\"w\" d=\"M150 7H176\"/><text x=\"182\" y=\"11\">waits</text>\
     <rect x=\"230\" y=\"0\" width=\"14\" height=\"14\" fill=\"#3b78b5\"/><circle cx=\"237\" cy=\"7\" r=\"3\" fill=\"#fff\"/>\
     <text x=\"250\" y=\"11\">call done</text><rect x=\"320\" y=\"0\" width=\"18\" height=\"14\" fill=\"#222\"/><text class=\"b\" x=\"329\" y=\"11\">A</text>\
     <text x=\"344\" y=\"11\">byte put</text><rect x=\"410\" y=\"0\" width=\"18\" height=\"14\" fill=\"#d02f2f\"/>\
     <text class=\"b\" x=\"419\" y=\"11\">e3</text><text x=\"434\" y=\"11\">call refused</text>\
     <rect x=\"520\" y=\"0\" width=\"18\" height=\"14\" fill=\"#7d0f0f\"/><text class=\"b\" x=\"529\" y=\"11\">f4</text><text x=\"544\" y=\"11\">fault</text>\
     <text class=\"n\" x=\"600\" y=\"11\">numbers: lines of the trace; long runs are drawn shorter; white: nobody runs</text></g>\n</svg>\n";

/// Puts what a text says, so that the picture has it as it is.
pub(crate) fn push_said(to: &mut String, said: &str) -> Result<(), AllocError> {
    for character in said.chars() {
        match character {
            '<' => to.push_str("&lt;")?,
            '>' => to.push_str("&gt;")?,
            '&' => to.push_str("&amp;")?,
            shown if shown.is_control() => to.push_str("?")?,
            shown => to.push(shown)?,
        }
    }
    Ok(())
}
