ghost use Rattle.std.specs.Prelude.{◌≡◌, IfOk};

use stamps::Stamp;
use std::alloc::Global;
use std::marker::Model;
use std::sync::Arc;
use value_lists::{NoMemory, TryCopy};

/// Stamps that copies share, seen by contracts as their list.
#[derive(Drop)]
pub struct KeptStamps {
    stamps: Arc<Vec<Stamp>>,
}

impl Model for KeptStamps {
    ghost use Rattle.std.specs.Prelude.{List};
    ghost use Rattle.std.specs.Arc.{arc_value};
    ghost use Rattle.std.specs.Coded.{coded_list};
    ghost use Rattle.stamps.specs.declared.stamp.Stamp.{Stamp};
    ghost use Rattle.stamps.specs.contracts.stamp.Stamp as stamp;

    ghost Value = { List Stamp };

    ghost coded = { coded_list stamp.the_row.coded };

    ghost view = { λ s. (arc_value s.stamps).items };
}

impl KeptStamps {
    /// These stamps, to be shared.
    pub fn new(alloc: Global, stamps: Vec<Stamp>) -> Result<KeptStamps, NoMemory>
        ensures { IfOk result (λ kept. kept ≡ stamps.items) }
    {
        match Arc::new(alloc, stamps) {
            Ok(stamps) => Ok(KeptStamps { stamps }),
            Err(_) => Err(NoMemory),
        }
    }

    /// A list of them.
    pub fn list(&self, alloc: Global) -> Result<Vec<Stamp>, NoMemory>
        ensures { IfOk result (λ list. list.items ≡ self.now) }
    {
        Ok(self.stamps.to_vec(alloc)?)
    }
}

impl TryCopy for KeptStamps {
    /// They are shared.
    fn copy(&self, _alloc: Global) -> Result<KeptStamps, NoMemory> {
        Ok(KeptStamps {
            stamps: Arc::try_clone(&self.stamps)?,
        })
    }
}
