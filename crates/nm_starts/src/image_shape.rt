//! The shape of the mirror that superblocks are of.
ghost use Rattle.std.specs.Prelude.{◌↔◌, IfOk, IsTrue};
ghost use Rattle.nm_starts.specs.ImageShape.{IsShapeOf};

use nm_commands::MirrorSettings;
use nm_geometry::Shape;
use nm_leg_files::LegFiles;
use nm_reports::StartFault;
use nm_superblock::Superblock;

/// The shape of the mirror that the image is of, over these files.
pub fn shape_by(
    mirror: &MirrorSettings<'_>,
    files: &LegFiles,
    image: &Superblock,
) -> Result<Shape, StartFault>
    ensures { IfOk result (IsShapeOf image.now) }
{
    let shape = match files.shape(image.stripes, mirror.history) {
        Some(shape) if fits(&shape, image) => shape,
        _ => return Err(StartFault::OtherMirror(image.leg as usize)),
    };
    check_stripes(mirror, files, image)?;
    Ok(shape)
}

// Refuses another number of stripes than the image's, where one was named. More than there are
// regions are as many as these.
fn check_stripes(
    mirror: &MirrorSettings<'_>,
    files: &LegFiles,
    image: &Superblock,
) -> Result<(), StartFault> {
    if !mirror.names_stripes {
        return Ok(());
    }
    match files.shape(mirror.stripes, mirror.history) {
        Some(asked) if asked.stripes != u32::from(image.stripes) => {
            Err(StartFault::OtherStripes(mirror.stripes, image.stripes))
        }
        _ => Ok(()),
    }
}

// Whether the image is of a mirror of this shape.
fn fits(shape: &Shape, image: &Superblock) -> bool
    ensures { IsTrue result ↔ IsShapeOf image.now shape.now }
{
    image.blocks == shape.blocks
        && u64::from(image.region_blocks) == shape.region
        && image.span_regions > 0
        && u32::from(image.stripes) == shape.stripes
}
