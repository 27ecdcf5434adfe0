// What a query sees of a vault.
ghost use Rattle.std.specs.Prelude.{◌≡◌, Err, IfErr, IfOk, None, Some};
ghost use Rattle.mesa_read_turns.specs.Seeing.{SeesBooks, catalogue_asked, pinned_asked};
ghost use Rattle.mesa_filter.specs.declared.words.QueryWords.{QueryWords as AnyWords};
ghost use Rattle.mesa_engine.specs.EngineState.{books_of};
ghost use Rattle.mesa_model.specs.Query.{query_answer};
ghost use Rattle.mesa_engine.specs.mesa_history_spec.Rows.{Rows};

use mesa_engine::{Catalog, Metadata};
use mesa_filter::VersionWord;
use mesa_model::Refusal;

/// The tables that a query sees, and where they are a pin's, its version, which is asked of each of them.
pub struct Seen<'a> {
    pub catalog: &'a Catalog,
    pub pinned: Option<u32>,
}

/// What a session's query sees: the tables of the pin that it names, as they were pinned, or the present ones.
pub fn seen_by<'a>(
    metadata: &'a Metadata,
    session: u16,
    asked: VersionWord,
) -> Result<Seen<'a>, Refusal>
    ensures sees { IfOk result (λ seen. (rows : Rows) (words : AnyWords) → words.version ≡ asked → SeesBooks seen words session (books_of rows metadata.now.state)) }
    ensures catalogue { IfOk result (λ seen. catalogue_asked metadata.now.state session asked ≡ Some seen.catalog.now.catalogue) }
    ensures pinned { IfOk result (λ seen. seen.pinned ≡ pinned_asked metadata.now.state session asked) }
    ensures refused { IfErr result (λ x. (rows : Rows) (words : AnyWords) → words.version ≡ asked → query_answer (books_of rows metadata.now.state).bare session words ≡ Err x) }
{
    metadata.check_open()?;
    let VersionWord::Pin(token) = asked else {
        return Ok(Seen {
            catalog: metadata.catalog(),
            pinned: None,
        });
    };
    let Some(pin) = metadata.pin_of(session, token) else {
        return Err(Refusal::NoPin { token });
    };
    Ok(Seen {
        catalog: &pin.copy,
        pinned: Some(pin.version),
    })
}
