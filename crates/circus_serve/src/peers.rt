// Which node a port is of.
ghost use Rattle.std.specs.Prelude.{◌≡◌, ◌==◌, position};
ghost use Rattle.circus_collate.specs.Deployment.{IsDeployment};
ghost use Rattle.circus_collate.specs.declared.deployment.Host.{Host as Hosting};
ghost use Rattle.circus_serve.specs.Happened as happened;

use circus_collate::{Deployment, Host};

/// At which port a node is: 0 where there is no such node. It takes no memory.
pub fn port_of(deployment: &Deployment, node: u16) -> u16
    ensures { result ≡ happened.port_of deployment.now node }
{
    match deployment.nodes.get(usize::from(node)) {
        Some(host) => host.port,
        None => 0,
    }
}

// The first node at a port.
fn node_at(hosts: &[Host], port: u16) -> Option<usize>
    ensures { result ≡ position (λ (h : Hosting). h.port == port) hosts.now }
{
    hosts.iter().position(|host| host.port == port)
}

/// The other node at a port: none where no node is there, or the node itself. It takes no memory.
pub fn peer_at(deployment: &Deployment, own: u16, port: u16) -> Option<u16>
    requires { IsDeployment deployment.now }
    ensures { result ≡ happened.peer_at deployment.now own port }
{
    let node = node_at(deployment.nodes.as_slice(), port)? as u16;
    if node == own { None } else { Some(node) }
}
