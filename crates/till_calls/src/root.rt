//! What no turn changes.
use std::marker::Model;
use std::snapshot::Snapshot;

/// The shop at its start, as contracts see it. No value of it is made.
pub struct ShopRoot<C> {
    clock: Snapshot<C>,
}

impl<C> Model for ShopRoot<C> {
    ghost use Rattle.std.specs.Prelude.{[]};
    ghost use Rattle.record_fields.specs.declared.versions.Version.TheVariants.{One};
    ghost use Rattle.till_calls.specs.Root.{Root};

    ghost Value = { Root C };

    ghost view = { λ r. record {
      issuer = [];
      version = One;
      history = [];
      on_disk = record { content = []; now = record { synced = []; ranges = [] }; past = [] };
      faults = 0;
      clock = r.clock.value;
    } };
}
