// The lines of pages.
ghost use Rattle.std.specs.Prelude.{◌≡◌, ◌++◌, [], ◌∷◌, IfOk, IsTrue, OnOk, codes};
ghost use Rattle.std.specs.List.{AllByRecursion, flat_map};
ghost use Rattle.mesa_filter.specs.Hex.{hex_of};
ghost use Rattle.mesa_key.specs.Spelling.{is_spelling};
ghost use Rattle.mesa_columns.specs.declared.rows.Row.{Row as AnyRow};
ghost use Rattle.mesa_script.specs.Rows.{rendered, row_line};

use crate::rows::set_fields;
use crate::writing::{into_lines, row_writer, write_row};
use csv::ByteRecord;
use mesa_columns::Row;
use mesa_key::KeyType;
use mesa_list::Items;
use mesa_model::Page;
use mesa_script::Rendered;
use std::alloc::{AllocError, Global};

// The lines of rows, one after the other.
fn row_lines(alloc: Global, kinds: &[KeyType], rows: &[Row]) -> Result<Vec<u8>, AllocError>
    requires { AllByRecursion (λ (row : AnyRow). IsTrue (is_spelling kinds.now row.key)) rows.now }
    ensures { IfOk result (λ lines. lines.items ≡ flat_map (row_line kinds.now) rows.now) }
{
    let mut fields = ByteRecord::new(alloc);
    let mut writer = row_writer(alloc);
    'rows: for row in rows {
        set_fields(&mut fields, kinds, row)?;
        write_row(&mut writer, &fields)?;
    }
    into_lines(writer)
}

// Puts bytes in hexadecimal.
fn push_hex(body: &mut Vec<u8>, bytes: &[u8]) -> Result<(), AllocError>
    ensures { OnOk result (body.new.items ≡ body.old.items ++ hex_of bytes.now) }
{
    let digits = hex::encode(*body.allocator(), bytes)?;
    body.extend_from_slice(digits.as_bytes())
}

// Puts the line that says where a page goes on.
fn put_resume(body: &mut Vec<u8>, prefix: &[u8], key: &[u8]) -> Result<(), AllocError>
    ensures { OnOk result (body.new.items ≡ body.old.items ++ (codes "resume " ++ prefix.now ++ hex_of key.now ++ 10 ∷ [])) }
{
    body.extend_from_slice(b"resume ")?;
    body.extend_from_slice(prefix)?;
    push_hex(body, key)?;
    body.push(b'\n')?;
    Ok(())
}

/// A page as it is printed, by the types of its group columns and what stands before the group key
/// in its resume key.
pub fn render(
    alloc: Global,
    page: &Page,
    kinds: &[KeyType],
    prefix: &[u8],
) -> Result<Rendered, AllocError>
    requires { AllByRecursion (λ (row : AnyRow). IsTrue (is_spelling kinds.now row.key)) page.now.rows }
    ensures { IfOk result (λ text. text ≡ rendered (record { kinds = kinds.now; prefix = prefix.now }) page.now) }
{
    // More rows than that don't fit into memory, whatever the query's limit.
    let Ok(rows) = u32::try_from(page.rows.len()) else {
        return Err(AllocError);
    };
    let mut body = row_lines(alloc, kinds, page.rows.as_slice())?;
    if let Some(key) = &page.resume {
        put_resume(&mut body, prefix, key.as_slice())?;
    }
    Ok(Rendered {
        rows,
        more: page.resume.is_some(),
        body: Items::from_vec(body),
    })
}
