// What holds of every datagram that a node sends.
ghost use Rattle.std.specs.Prelude.{ℕ, List, Option};
ghost use Rattle.circus_collate.specs.declared.deployment.Deployment.{Deployment};
ghost use Rattle.circus_node.specs.NodeState.{NodeState};
ghost use Rattle.circus_node.specs.declared.event.Event.{Event};
ghost use Rattle.circus_node.specs.declared.event.Outputs.{Outputs};
ghost use Rattle.circus_schedule.specs.declared.line.Line.{Line};
ghost use Rattle.circus_world.specs.WorldState.{WorldState, Standing};
ghost use Rattle.circus_world_theory.specs.NodeLives.{Events, IsLife};
ghost use Rattle.circus_headline_theory.specs.Datagrams.Lives.{IsNext};
ghost use Rattle.circus_headline_theory.specs.Datagrams.Lives.{BootIsJustified, StepIsJustified};
ghost use Rattle.circus_headline_theory.specs.Datagrams.Ring as ring;
ghost use Rattle.circus_headline_theory.specs.Datagrams.Worlds.{IsStepIn, StepIsTrue};

use circus_model::Module;

/// Every datagram that a member sends is justified, whatever comes to its node from the other
/// ones: datagrams with any bytes, whatever they claim, ticks, true and false declarations, and
/// joins (docs/PROOFS.md, "Every datagram is true").
pub fn datagrams_are_justified<M: Module>()
    ensures boot { (d : Deployment) (own : M) (node : ℕ) (events : Events)
        (begun last : NodeState M)
        → (life : IsLife M.declared M.turn M.first d own node events begun last)
        → BootIsJustified M.declared M.turn M.first d own node begun life.outputs }
    ensures steps { (d : Deployment) (own : M) (node : ℕ) (events : Events)
        (begun before : NodeState M) (step : ℕ) (event : Event) (ended : NodeState M × Outputs)
        → IsNext M.declared M.turn M.first d own node events begun before step event ended
        → StepIsJustified M.declared M.turn M.first d own node events begun before
        step event ended }
{}

/// So is every datagram that the Ringmaster's node sends: each return is the table that the ring's
/// rule gives for the request that is its call, behind those that were accepted before it.
pub fn tables_are_justified<M: Module>()
    ensures { (d : Deployment) (node : ℕ) (events : Events) (begun before : NodeState M)
        (step : ℕ) (event : Event) (ended : NodeState M × Outputs)
        → ring.IsNext M.declared M.turn M.first d node events begun before step event ended
        → ring.StepIsJustified M.declared M.turn M.first d node events begun before
        step event ended }
{}

/// In every world of a program whose modules agree the datagrams of members are justified, and
/// there the record stands that a datagram cites, so each is true.
pub fn datagrams_are_true<M: Module>()
    ensures { (d : Deployment) (modules : List M) (hosted : List (Option M))
        (lines : List Line) (line : Line) (begun w last : WorldState M)
        (node : ℕ) (event : Event) (before after : Standing M) (outputs : Outputs)
        → IsStepIn M.declared M.turn M.first d modules hosted lines line begun w last
        node event before after outputs
        → StepIsTrue M.declared M.turn M.first d modules hosted lines begun w
        node event before after outputs }
{}
