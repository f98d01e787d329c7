// What holds of all snapshots.
ghost use Rattle.std.specs.Prelude.{◌≡◌, ◌≢◌, ◌<◌, ◌^◌, ℕ, true, List, Result, Ok, Err};
ghost use Rattle.circus_value.specs.ValueTree.{ValueTree};
ghost use Rattle.circus_value.specs.Fits.{all_fit};
ghost use Rattle.circus_value.specs.declared.shape.Shape.{Shape as Kind};
ghost use Rattle.circus_external.specs.Refusal.{are_proper};
ghost use Rattle.circus_external.specs.Reading.{fields_reading};
ghost use Rattle.circus_transfer.specs.Snapshot.{fields_of, snapshot_fields, snapshot_bytes};
ghost use Rattle.circus_transfer.specs.Seen.Restored.{Restores};
ghost use Rattle.circus_transfer.specs.declared.fault.TransferFault.{TransferFault as Fault};
ghost use Rattle.circus_transfer.specs.declared.fault.TransferFault.TheVariants.{NoMemory};

/// What a snapshot hands over is restored, but for want of memory.
pub fn snapshots_are_restored()
    ensures { (shapes : List Kind) (state : List ValueTree) (count : ℕ)
        (result : Result (List ValueTree × ℕ) Fault)
        → are_proper (fields_of shapes) ≡ true → all_fit shapes state ≡ true → count < 2 ^ 32
        → Restores (snapshot_bytes count state) result
        (fields_reading (snapshot_fields shapes) 0 (snapshot_bytes count state))
        → result ≢ Err NoMemory → result ≡ Ok (state, count) }
{}
