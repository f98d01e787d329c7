// The faults of nodes.
ghost use Rattle.std.specs.Prelude.{◌≡◌, [], unwrap_or, OnOk};
ghost use Rattle.std.specs.List.{flat_map};
ghost use Rattle.circus_fault.specs.Least.{least_from};
ghost use Rattle.circus_deployment.specs.Rank.{rank_of};
ghost use Rattle.circus_deployment.specs.Nodes.{hosts_of, nodes_of};
ghost use Rattle.circus_deployment.specs.Faults.{no_nodes, node_faults, behind_node, nodes_faults, behind_nodes};
ghost use Rattle.circus_deployment.specs.Seen.{before_of, as_counted};

use crate::cause::Cause;
use circus_fault::{Best, Names, NumberSet};
use circus_limits::{GREATEST_PORT, MOST_NODES};
use circus_syntax::{Named, Numeral};
use circus_troupe::{DeploymentText, HostText, HostTexts, TroupeText};
use circus_value::NoMemory;
use std::alloc::Global;

/// The nodes before a place of a deployment.
#[derive(Drop)]
pub struct SeenNodes<'a> {
    pub names: Names<'a>,
    pub ports: NumberSet,
    /// How many they are, at most one more than there may be.
    pub count: u8,
}

impl<'a> SeenNodes<'a> {
    fn new(alloc: Global) -> Self
        ensures { before_of result ≡ no_nodes }
    {
        SeenNodes {
            names: Names::new(alloc),
            ports: NumberSet::new(alloc),
            count: 0,
        }
    }

    // One more node.
    fn node(
        &mut self,
        best: &mut Best<Cause>,
        name: &'a Named,
        port: Numeral,
    ) -> Result<(), NoMemory>
        ensures found { OnOk result
            (best.new.fault ≡ least_from rank_of best.old.fault
            (node_faults (before_of self.old) name.now port)) }
        ensures behind { OnOk result
            (before_of self.new ≡ as_counted (behind_node (before_of self.old) name.now port)) }
    {
        let earlier = self.names.insert(name.name.as_slice(), 0)?;
        let is_new = self.ports.insert(port.value)?;
        best.note(earlier.is_some(), name.at, Cause::Repeated);
        best.note(self.count == MOST_NODES, name.at, Cause::TooMany);
        best.note(!is_new, port.at, Cause::Repeated);
        best.note_out_of(GREATEST_PORT, port, Cause::OutOfRange);
        self.count = self.count.saturating_add(1).min(MOST_NODES + 1);
        Ok(())
    }

    fn nodes(&mut self, best: &mut Best<Cause>, hosts: &'a [HostText]) -> Result<(), NoMemory>
        ensures found { OnOk result
            (best.new.fault ≡ least_from rank_of best.old.fault
            (nodes_faults (before_of self.old) hosts.now)) }
        ensures behind { OnOk result
            (as_counted (before_of self.new)
            ≡ as_counted (behind_nodes (before_of self.old) hosts.now)) }
    {
        for host in hosts {
            self.node(best, &host.name, host.port)?;
        }
        Ok(())
    }

    // The spares of a troupe, where they are written.
    fn spares(
        &mut self,
        best: &mut Best<Cause>,
        spares: &'a Option<HostTexts>,
    ) -> Result<(), NoMemory>
        ensures found { OnOk result
            (best.new.fault ≡ least_from rank_of best.old.fault
            (nodes_faults (before_of self.old) (unwrap_or spares.now []))) }
        ensures behind { OnOk result
            (as_counted (before_of self.new)
            ≡ as_counted (behind_nodes (before_of self.old) (unwrap_or spares.now []))) }
    {
        match spares {
            Some(hosts) => self.nodes(best, hosts.as_slice()),
            None => Ok(()),
        }
    }

    // The nodes of a troupe.
    fn hosts(&mut self, best: &mut Best<Cause>, troupe: &'a TroupeText) -> Result<(), NoMemory>
        ensures found { OnOk result
            (best.new.fault ≡ least_from rank_of best.old.fault
            (nodes_faults (before_of self.old) (hosts_of troupe.now))) }
        ensures behind { OnOk result
            (as_counted (before_of self.new)
            ≡ as_counted (behind_nodes (before_of self.old) (hosts_of troupe.now))) }
    {
        self.nodes(best, troupe.members.as_slice())?;
        self.spares(best, &troupe.spares)?;
        Ok(())
    }

    fn troupes(&mut self, best: &mut Best<Cause>, troupes: &'a [TroupeText]) -> Result<(), NoMemory>
        ensures { OnOk result
            (best.new.fault ≡ least_from rank_of best.old.fault
            (nodes_faults (before_of self.old) (flat_map hosts_of troupes.now))) }
    {
        for troupe in troupes {
            self.hosts(best, troupe)?;
        }
        Ok(())
    }
}

/// The nodes of a deployment: each name and each port once, each port in its range, and not too many.
pub fn check_nodes(
    alloc: Global,
    best: &mut Best<Cause>,
    text: &DeploymentText,
) -> Result<(), NoMemory>
    ensures { OnOk result
        (best.new.fault ≡ least_from rank_of best.old.fault
        (nodes_faults no_nodes (nodes_of text.now))) }
{
    let mut seen = SeenNodes::new(alloc);
    seen.node(best, &text.ringmaster.name, text.ringmaster.port)?;
    seen.troupes(best, text.troupes.as_slice())?;
    Ok(())
}
