// Which lines may be stepped.
ghost use Rattle.std.specs.Prelude.{◌≡◌};
ghost use Rattle.circus_world.specs.Legal as legal;

use circus_collate::Deployment;
use circus_value::is_among;

/// Whether a node is a spare of its troupe. It takes no memory.
pub fn is_spare(deployment: &Deployment, node: u16) -> bool
    ensures { result ≡ legal.is_spare deployment.now node }
{
    let Some(host) = deployment.nodes.get(usize::from(node)) else {
        return false;
    };
    let Some(number) = host.module else {
        return false;
    };
    match deployment.troupes.get(usize::from(number)) {
        Some(troupe) => is_among(troupe.spares.as_slice(), node),
        None => false,
    }
}
