//! The names of blocks and fields in text, and the scales of counts.
ghost use Rattle.std.specs.Prelude.{◌≡◌, true, false, is_some};

/// A field in text: its name, and what a count stands for.
#[derive(Clone, Copy)]
pub struct FieldText {
    pub name: &'static str,
    pub scale: Option<Scale>,
}

/// A count stands for `factor` times the count times 2^`power` of the unit.
#[derive(Clone, Copy)]
pub struct Scale {
    pub factor: i32,
    pub power: i32,
    pub unit: &'static str,
}

impl FieldText {
    /// A field whose counts have no scale.
    pub fn plain(name: &'static str) -> FieldText
        ensures { is_some result.scale ≡ false }
    {
        FieldText { name, scale: None }
    }

    pub fn scaled(name: &'static str, factor: i32, power: i32, unit: &'static str) -> FieldText
        ensures { is_some result.scale ≡ true }
    {
        FieldText {
            name,
            scale: Some(Scale {
                factor,
                power,
                unit,
            }),
        }
    }
}

/// A kind of block in text.
pub trait Described {
    /// The name of the block.
    const NAME: &'static str;

    /// Field number `i`, and past the last the last.
    // A function, since a constant slice could call neither `plain` nor `scaled`.
    fn field_text(i: usize) -> FieldText;
}
