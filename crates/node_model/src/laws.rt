//! Laws on what a node replies; no function here does anything.

ghost use Rattle.std.specs.Prelude.{◌≡◌, ◌⊎◌, List};
ghost use Rattle.entry_maps.specs.EntryCodes.{Entries};
ghost use Rattle.messages.specs.declared.message.Message.{Message};
ghost use Rattle.messages.specs.declared.reply.Reply.{Reply};
ghost use Rattle.messages.specs.declared.reply.Reply.TheVariants as reply;
ghost use Rattle.node_model.specs.Nodes.{Node, adopt};
ghost use Rattle.node_model.specs.Takes.{Takes, IsServed, IsRefused};

/// Where memory serves, a message has one reply, and leaves one node.
pub fn replies_are_one()
    ensures { (old a b : Node) → (m : Message) → (r q : Reply) → Takes old m a r → Takes old m b q → IsServed r → IsServed q
        → (r ≡ q) × (a ≡ b) }
{}

/// What is no answer leaves the node as it was, but for a greater version and the regions that it drops.
pub fn refusals_change_nothing()
    ensures { (old new : Node) → (m : Message) → (r : Reply) → Takes old m new r → IsRefused r
        → (new ≡ old) ⊎ (new ≡ adopt m.version old) }
{}
