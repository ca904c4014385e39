use crate::dissect::Dissect;
use crate::grok::Grok;
use esql_types::Seq;

/// What cuts texts into columns.
#[derive(Drop)]
pub enum Cutter {
    Dissect(Dissect),
    Grok(Grok),
}

/// What the commands of a plan cut by, in order.
pub type Cutters = Seq<Cutter>;
