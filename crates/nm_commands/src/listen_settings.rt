/// Where clients and control connect.
#[derive(Clone, Copy, PartialEq, Eq)]
pub struct ListenSettings<'a> {
    /// Where sessions are taken: an address and a port.
    pub address: &'a str,
    /// The port of 127.0.0.1 where they are taken in its place, where one was named.
    pub port: Option<u16>,
    /// Where the control port is: an address and a port.
    pub control: &'a str,
}
