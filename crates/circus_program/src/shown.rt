// What is shown of a schedule.

/// What is shown of the lines of a schedule: the report of the world that they leave, or the picture of what they do.
#[derive(Clone, Copy, Debug)]
pub enum Shown {
    Report,
    Picture,
}
