//! Values, which contracts see as plain trees.
use chw_base::ConId;
use chw_bits::Bits;
use std::marker::Model;

/// A value that can be bits.
#[cycle(data_value)]
#[derive(Drop)]
pub struct DataValue {
    pub node: DataNode,
}

/// The forms of values.
#[cycle(data_value)]
#[derive(Drop)]
pub enum DataNode {
    /// A scalar's bits, the most significant first.
    Scalar(Bits),
    /// A constructor, counted over all data types of the program, and its fields from left to right.
    Data(ConId, Vec<DataValue>),
    /// The elements of a vector, element 0 first.
    Vec(Vec<DataValue>),
}

impl Model for DataValue {
    ghost use Rattle.chw_layout.specs.Datum.{Datum};
    ghost use Rattle.chw_layout.specs.DatumCode.{coded_datum};

    ghost Value = { Datum };

    ghost coded = { coded_datum };

    ghost use Rattle.chw_layout.specs.DatumView.{datum_of};
    ghost use Rattle.chw_layout.specs.DatumSize.{datum_size};

    ghost view = { λ v. datum_of v.node };

    ghost size = { datum_size };

    ghost use Rattle.chw_layout.specs.DatumFalls.{datum_falls};

    ghost size_decreases = { λ a h. datum_falls a.node };
}
