// What a run was started with, and its channel, as a type names them.

use std::marker::Brand;

/// What a run was started with, and the channel of its jobs: its table and its key. The state behind a lock is known by
/// its type alone, so its type takes this parameter; and the ends of one channel have the same.
pub trait Origin {
    ghost use Rattle.std.specs.Prelude.{Option};
    ghost use Rattle.atomic_table.specs.Seated.{TableId};
    ghost use Rattle.atomic_table.specs.declared.badge.Badge.{Badge};
    ghost use Rattle.crossbeam_channel.specs.declared.flavors.array.Key.{Key};
    ghost use Rattle.device.specs.declared.jobs.Job.{Job};
    ghost use Rattle.host.specs.Origins.{Start};

    ghost start: { Option Start };

    ghost table: { TableId };

    ghost key: { Badge (Key Job) };
}

impl Origin for Brand {
    ghost use Rattle.std.specs.Prelude.{None};
    ghost use Rattle.host.specs.Origins.{no_table};
    ghost use Rattle.crossbeam_channel.specs.Claims.{no_key};

    ghost start = { None };

    ghost table = { no_table };

    ghost key = { no_key };
}
