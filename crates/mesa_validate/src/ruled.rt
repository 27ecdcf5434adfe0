// What the rules let a command do.
use mesa_model::Reply;
use mesa_record::Record;

/// What a command does that the rules allow: the record that the journal takes for it, and what is told once it is written.
#[derive(Drop)]
pub struct Ruled {
    pub writes: Record,
    pub tells: Reply,
}
