//! Lists of dyes and of weights.

ghost use Rattle.std.specs.Prelude.{◌≡◌};

use ks_curves::Dye;
use spectral_tables::Weights;
use std::marker::Model;

/// Dyes, in the order of a job.
#[derive(Drop)]
pub struct DyeList {
    list: Vec<Dye>,
}

impl Model for DyeList {
    ghost use Rattle.std.specs.Prelude.{List};
    ghost use Rattle.ks_curves.specs.Dye.{DyeData};

    ghost Value = { List DyeData };

    ghost view = { λ d. d.list.items };
}

impl DyeList {
    /// The list of these dyes.
    pub fn of(list: Vec<Dye>) -> DyeList
        ensures { result ≡ list.items }
    {
        DyeList { list }
    }

    /// The dyes.
    pub fn as_slice(&self) -> &[Dye]
        ensures { result.now ≡ self.now }
    {
        self.list.as_slice()
    }
}

/// Weights, in the order of a job's lights.
#[derive(Drop)]
pub struct WeightsList {
    list: Vec<Weights>,
}

impl Model for WeightsList {
    ghost use Rattle.std.specs.Prelude.{List};
    ghost use Rattle.spectral_tables.specs.WeightTable.{WeightTable};

    ghost Value = { List WeightTable };

    ghost view = { λ w. w.list.items };
}

impl WeightsList {
    /// The list of these weights.
    pub fn of(list: Vec<Weights>) -> WeightsList
        ensures { result ≡ list.items }
    {
        WeightsList { list }
    }

    /// The weights.
    pub fn as_slice(&self) -> &[Weights]
        ensures { result.now ≡ self.now }
    {
        self.list.as_slice()
    }
}
