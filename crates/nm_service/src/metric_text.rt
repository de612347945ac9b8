ghost use Rattle.std.specs.Prelude.{◌≡◌, ◌++◌, IfOk};
ghost use Rattle.std.specs.String.{string_bytes};
ghost use Rattle.nm_service.specs.MetricText.{braced, comment, heading, sample};

use std::alloc::AllocError;

// Puts a line that begins with this word, and what it says of the metric of this name.
fn put_remark(text: &mut String, word: &str, name: &str, remark: &str) -> Result<(), AllocError>
    ensures { IfOk result (λ _. string_bytes text.new
        ≡ string_bytes text.old ++ comment word.now name.now remark.now) }
{
    text.push_str(word)?;
    text.push_str(name)?;
    text.push_str(" ")?;
    text.push_str(remark)?;
    text.push_str("\n")
}

/// Puts the lines that a metric begins with: what it is, and of which kind.
pub fn put_heading(text: &mut String, name: &str, kind: &str, help: &str) -> Result<(), AllocError>
    ensures { IfOk result (λ _. string_bytes text.new
        ≡ string_bytes text.old ++ heading name.now kind.now help.now) }
{
    put_remark(text, "# HELP ", name, help)?;
    put_remark(text, "# TYPE ", name, kind)
}

// Puts the labels between braces, or nothing where there are none.
fn put_labels(text: &mut String, labels: &str) -> Result<(), AllocError>
    ensures { IfOk result (λ _. string_bytes text.new
        ≡ string_bytes text.old ++ braced labels.now) }
{
    if labels.is_empty() {
        return Ok(());
    }
    text.push_str("{")?;
    text.push_str(labels)?;
    text.push_str("}")
}

/// Puts one line of a metric: its name, its labels as they stand between braces, which are left out
/// where there is none, and its value.
pub fn put_sample(
    text: &mut String,
    name: &str,
    labels: &str,
    value: &str,
) -> Result<(), AllocError>
    ensures { IfOk result (λ _. string_bytes text.new
        ≡ string_bytes text.old ++ sample name.now labels.now value.now) }
{
    text.push_str(name)?;
    put_labels(text, labels)?;
    text.push_str(" ")?;
    text.push_str(value)?;
    text.push_str("\n")
}
