// The lines of a plan.
ghost use Rattle.std.specs.Prelude.{◌≡◌, ◌++◌, ◌∷◌, [], true, decimal, IfOk, OnOk};
ghost use Rattle.mesa_engine.specs.mesa_history_spec.Replay.{no_rows as no_heading};
ghost use Rattle.mesa_script.specs.Rows.{body_of, order_line, span_lines as lines_in};
ghost use Rattle.mesa_engine.specs.mesa_invariant_spec.Changes.{is_plain};

use itoa::Buffer;
use mesa_columns::Name;
use mesa_model::Reply;
use std::alloc::{AllocError, Global};

/// What stands behind the head line of a reply that is no page: a plan's ranges, one a line, and by which relation a query would be answered, where that was asked.
pub(crate) fn lines_of(alloc: Global, told: &Reply) -> Result<Vec<u8>, AllocError>
    requires { is_plain told.now ≡ true }
    ensures { IfOk result (λ lines. lines.items ≡ body_of no_heading told.now) }
{
    match told {
        Reply::Spans { ranges, by } => {
            let mut lines = span_lines(alloc, ranges.as_slice())?;
            push_order(&mut lines, by)?;
            Ok(lines)
        }
        _ => Ok(Vec::new(alloc)),
    }
}

fn span_lines(alloc: Global, spans: &[(u32, u32)]) -> Result<Vec<u8>, AllocError>
    ensures { IfOk result (λ lines. lines.items ≡ lines_in spans.now) }
{
    let mut lines = Vec::new(alloc);
    'spans: for span in spans {
        push_span(&mut lines, *span)?;
    }
    Ok(lines)
}

fn push_span(lines: &mut Vec<u8>, span: (u32, u32)) -> Result<(), AllocError>
    ensures { OnOk result (lines.new.items ≡ lines.old.items ++ lines_in (span ∷ [])) }
{
    lines.push(b'[')?;
    push_number(lines, span.0)?;
    lines.push(b',')?;
    push_number(lines, span.1)?;
    lines.extend_from_slice(b"]\n")
}

fn push_number(lines: &mut Vec<u8>, number: u32) -> Result<(), AllocError>
    ensures { OnOk result (lines.new.items ≡ lines.old.items ++ decimal number) }
{
    let mut buffer = Buffer::new();
    lines.extend_from_slice(buffer.format(number).as_bytes())
}

// Adds the line of the relation by which a query would be answered, where that was asked.
fn push_order(lines: &mut Vec<u8>, by: &Option<Name>) -> Result<(), AllocError>
    ensures { OnOk result (lines.new.items ≡ lines.old.items ++ order_line by.now) }
{
    match by {
        None => Ok(()),
        Some(name) => {
            lines.extend_from_slice(b"by ")?;
            lines.extend_from_slice(name.bytes())?;
            lines.push(b'\n')?;
            Ok(())
        }
    }
}
