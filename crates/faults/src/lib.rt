// What every refusal of the library tells: a number, a layer and a place.
#![tactic(auto)]

ghost use Rattle.std.specs.Prelude.{◌≡◌, Some};
ghost use Rattle.faults.specs.Faults.{letter_of, fault_text};

use std::fmt;

// The layer that found a fault. Layers above carry the fault whole.
#[derive(Clone, Copy, PartialEq, Eq, Debug)]
pub enum Layer {
    Bounds,
    Kinds,
    Books,
    Plans,
    Lines,
}

// The letter that stands for the layer wherever a fault is printed.
impl From<Layer> for char {
    ghost from_gives = { λ l c. c ≡ letter_of l };

    fn from(layer: Layer) -> char {
        match layer {
            Layer::Bounds => 'D',
            Layer::Kinds => 'K',
            Layer::Books => 'B',
            Layer::Plans => 'P',
            Layer::Lines => 'L',
        }
    }
}

// A refusal as every layer tells it. The place is 0 where a fault names none.
#[derive(Clone, Copy, PartialEq, Eq, Debug)]
pub struct Fault {
    pub number: u8,
    pub layer: Layer,
    pub place: u64,
}

impl fmt::Display for Fault {
    ghost output = { λ f. Some (fault_text f) };

    fn fmt<W: fmt::Write>(&self, f: &mut fmt::Formatter<W>) -> fmt::Result {
        let Fault {
            number,
            layer,
            place,
        } = *self;
        let letter = char::from(layer);
        write!(f, "fault {number}, layer {letter}, place {place}")
    }
}
