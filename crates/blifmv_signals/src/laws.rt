//! What is known of a network's signals picks one fault, and none exactly where the network meets its conditions.

ghost use Rattle.std.specs.Prelude.{◌≡◌, ◌↔◌, ℕ, List, None, length};
ghost use Rattle.std.specs.List.{All};
ghost use Rattle.net_model.specs.Conditions.{MeetsConditions};
ghost use Rattle.net_model.specs.Forms.{Form};
ghost use Rattle.net_model.specs.Nets as nets;
ghost use Rattle.net_model.specs.NetTexts.{text_in, net_with};
ghost use Rattle.net_model.specs.SoundNets.{HasKnownSignals};
ghost use Rattle.net_model.specs.Spellings.{domain_at};
ghost use Rattle.blifmv_signals.specs.SignalFaults.{Known, IsKnown, signal_fault};

/// The lines of a network whose latches have equal sizes break no condition on signals exactly where it meets them all.
pub fn signals_without_fault()
    ensures { (net : nets.Net) (bytes : List ℕ) (known : Known) → net ≡ net_with net.names (text_in bytes) → IsKnown net (text_in bytes) known → All (λ latch. length (domain_at net.names latch.input) ≡ length (domain_at net.names latch.output)) net.latches → (signal_fault net known bytes ≡ None) ↔ MeetsConditions net }
{}

/// There is something to know of each network whose signals have names, and whatever is rightly known of it picks the same
/// fault of a text.
pub fn signals_are_known()
    ensures known { (net : nets.Net) (text : List Form) → HasKnownSignals net → (known : Known) × IsKnown net text known }
    ensures same { (net : nets.Net) (text : List Form) (known other : Known) (bytes : List ℕ) → IsKnown net text known → IsKnown net text other → signal_fault net known bytes ≡ signal_fault net other bytes }
{}
