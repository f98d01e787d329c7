// Whether all that was sent was delivered.
ghost use Rattle.std.specs.Prelude.{◌≡◌, ◌↔◌, IsTrue, All};
ghost use Rattle.circus_world_theory.specs.Quiet.{IsDelivery, IsDelivered, IsQuiet};
ghost use Rattle.circus_world_theory.specs.Done.{EndsEveryRoot};

use circus_model::Module;
use circus_schedule::Line;
use circus_world::World;

/// Whether nothing but deliveries led to the world, by these lines, and each datagram that was sent
/// was delivered. Then every root has ended, in a program whose collators ask for no more than
/// there are founders. Where the lines are in the order of sending each of them is looked at once
/// for its datagram. It takes no memory.
pub fn quiet<M: Module>(world: &World<M>, lines: &[Line]) -> bool
    ensures quiet { IsTrue result ↔ IsQuiet world.now lines.now }
    ensures ends { IsTrue result → EndsEveryRoot M.declared M.turn M.first lines.now world.now }
{
    if !are_deliveries(lines) {
        return false;
    }
    for number in 0..world.sent().len() as u64 {
        if !is_delivered(lines, number) {
            return false;
        }
    }
    true
}

fn are_deliveries(lines: &[Line]) -> bool
    ensures { IsTrue result ↔ All IsDelivery lines.now }
{
    for line in lines {
        if !is_delivery(line) {
            return false;
        }
    }
    true
}

fn is_delivery(line: &Line) -> bool
    ensures { IsTrue result ↔ IsDelivery line.now }
{
    matches!(line, Line::Deliver(_))
}

// Whether a line delivers the datagram of this number, of which the line of the same place is
// looked at first.
fn is_delivered(lines: &[Line], number: u64) -> bool
    ensures { IsTrue result ↔ IsDelivered lines.now number }
{
    if let Some(line) = lines.get(number as usize) {
        if delivers(line, number) {
            return true;
        }
    }
    for line in lines {
        if delivers(line, number) {
            return true;
        }
    }
    false
}

// Whether the line delivers the datagram of this number.
fn delivers(line: &Line, number: u64) -> bool
    ensures { IsTrue result ↔ (line.now ≡ Line.Deliver number) }
{
    match *line {
        Line::Deliver(given) => given == number,
        _ => false,
    }
}
