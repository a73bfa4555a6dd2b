// What threads wait for.

ghost use Rattle.host.specs.Looks.{WaitsAreForAClosing};

/// Of every run that was reached and has not ended: where the host and the workers find nothing to do, an item is
/// open. So no thread waits but for a closing, and the thread that closes an item looks again.
pub fn waits_are_for_a_closing()
    ensures { WaitsAreForAClosing }
{}
