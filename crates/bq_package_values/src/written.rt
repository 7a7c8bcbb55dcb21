//! A value as one of a type, before its labels are read.

use bq_base::Bytes;
use bq_value_datum::AttributeValue;
use sqlite_items::Items;

/// A value of a type, as it is written.
#[derive(Drop)]
pub enum Written {
    /// It holds no label.
    Value(AttributeValue),
    /// The text of a label.
    Label(Bytes),
    LabelList(Items<Bytes>),
    /// The name of a file that the rule makes.
    Output(Bytes),
    OutputList(Items<Bytes>),
}
