use crate::client_settings::ClientSettings;
use crate::copy_settings::CopySettings;
use crate::listen_settings::ListenSettings;
use crate::mirror_settings::MirrorSettings;
use crate::opening_settings::OpeningSettings;

/// What the command line asks for.
#[derive(Drop)]
pub struct Settings<'a> {
    /// Where clients and control connect.
    pub listening: ListenSettings<'a>,
    /// What mirror it is.
    pub mirror: MirrorSettings<'a>,
    /// How it is opened, and by which superblocks.
    pub opening: OpeningSettings<'a>,
    /// How its legs are copied.
    pub copies: CopySettings,
    /// What clients are served.
    pub clients: ClientSettings<'a>,
}
