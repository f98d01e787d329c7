// What a call's header says of the troupe that calls, and of the one that is called.

/// The troupe that calls.
#[derive(Clone, Copy)]
pub(crate) struct Client {
    pub number: u16,
    pub incarnation: u32,
    pub index: u32,
}

/// The troupe that is called.
#[derive(Clone, Copy)]
pub(crate) struct Server {
    pub number: u16,
    pub incarnation: u32,
    pub procedure: u16,
}
