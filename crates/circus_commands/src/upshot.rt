// What a command of one file comes to.
use crate::Ending;
use circus_config::ModuleNames;
use circus_model::History;

/// What a program performs when nothing is replicated, with the names of its modules in module order.
#[derive(Drop)]
pub struct Performance {
    pub names: ModuleNames,
    pub history: History,
}

/// What a command of one file comes to: an end with all that it writes, or what a program performs, whose history is still to be
/// written.
#[derive(Drop)]
pub enum Upshot {
    Text(Ending),
    History(Performance),
}
