//! Makes the legs of a stripe anew, while its mirror serves.
ghost use Rattle.std.specs.Prelude.{◌≡◌, ◌≤◌, All, IfSome, None, length};
ghost use Rattle.nm_leg_files.specs.Files.{IsOfStripe, leg_place};

use crate::counting_file::BytesRead;
use crate::leg_files::{Leg, stripe_leg};
use crate::leg_place::LegPlace;
use nm_geometry::Shape;
use nm_stripe::Policy;
use std::alloc::Global;
use std::sync::Arc;

/// What makes the legs of a stripe that is opened anew.
pub trait MakesLegs<L> {
    /// The legs of this stripe, if they can be made.
    fn make(&self, alloc: Global, stripe: u32) -> Option<Vec<L>>;

    /// By which policy its legs are read.
    fn policy(&self) -> Policy;
}

/// The legs on the files that the server holds open and locked. Of a leg whose file is being opened
/// anew none is made.
#[derive(Drop)]
pub struct LegMaker<'x> {
    places: &'x [Arc<LegPlace>],
    shape: Shape,
    read: BytesRead,
    policy: Policy,
}

impl<'x> LegMaker<'x> {
    /// Those of a mirror of this shape over the files of these legs. What is read of them is
    /// counted here.
    pub fn new(
        places: &'x [Arc<LegPlace>],
        shape: &Shape,
        read: BytesRead,
        policy: Policy,
    ) -> LegMaker<'x> {
        LegMaker {
            places,
            shape: *shape,
            read,
            policy,
        }
    }
}

impl<'x> MakesLegs<Leg> for LegMaker<'x> {
    fn make(&self, alloc: Global, stripe: u32) -> Option<Vec<Leg>>
        ensures none { self.now.shape.stripes ≤ stripe → result ≡ None }
        ensures count { IfSome result (λ legs. length legs.items ≡ length self.now.places.now) }
        ensures own { IfSome result (λ legs. All (λ leg. IsOfStripe stripe self.now.shape
            (leg_place leg.medium leg.stripe leg.shape)) legs.items) }
    {
        if stripe >= self.shape.stripes {
            return None;
        }
        let mut legs = Vec::new(alloc);
        for (number, place) in self.places.iter().enumerate() {
            let file = place.file.try_lock()?;
            let leg = match stripe_leg(alloc, &file, number, &self.shape, stripe, &self.read) {
                Ok(leg) => leg,
                Err(_) => return None,
            };
            if legs.push(leg).is_err() {
                return None;
            }
        }
        Some(legs)
    }

    fn policy(&self) -> Policy {
        self.policy
    }
}
