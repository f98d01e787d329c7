// What holds of every node at boot, and of a member over every list of what happens to it.
ghost use Rattle.std.specs.Prelude.{◌≡◌, ◌<◌, ℕ, List, length};
ghost use Rattle.circus_collate.specs.Deployment.{IsDeployment};
ghost use Rattle.circus_collate.specs.declared.deployment.Deployment.{Deployment as Deployed};
ghost use Rattle.circus_collate.specs.declared.view.View.{View};
ghost use Rattle.circus_fanout.specs.Knowing.{known_by};
ghost use Rattle.circus_fanout.specs.Notices.{none_yet};
ghost use Rattle.circus_member_rules.specs.declared.place.Beginning.{Beginning as Begun};
ghost use Rattle.circus_member_rules.specs.declared.place.Place.{Place as Standing};
ghost use Rattle.circus_model.specs.Behaviour.{Behaviour};
ghost use Rattle.circus_model.specs.declared.signature.Signature.{Signature as Declared};
ghost use Rattle.circus_node.specs.Booting.{CanBoot, AreOfTroupes, declared_at};
ghost use Rattle.circus_node.specs.Noticing.{Happenings, member_at_boot, after_all, noticed_by_all};

/// What a member knows is what it noticed since boot, and nothing else: the tables that were told, the nodes that were
/// declared, the views that were wanted by calls that it held and by answers of newer views, and the Lookups that it made
/// (docs/PROTOCOL.md, "Views"). So of all tables the first of the greatest incarnation is known, and what is down was declared.
pub fn members_know_what_they_noticed()
    ensures { (b : Behaviour) (place : Standing) (views : List View) (beginning : Begun)
        (happenings : Happenings)
        → (after_all (member_at_boot b place views beginning) happenings).known
        ≡ known_by views
        (noticed_by_all none_yet (member_at_boot b place views beginning) happenings) }
{}

/// Where each troupe has a module of its own, every node of the program may boot with that of its troupe.
pub fn all_nodes_may_boot()
    ensures { (d : Deployed) (declared : List Declared) (node : ℕ) → IsDeployment d
        → AreOfTroupes d declared → node < length d.nodes
        → CanBoot d node (declared_at d declared node) }
{}
