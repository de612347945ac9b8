ghost use Rattle.std.specs.Prelude.{◌≡◌, ◌↔◌, IsTrue, replicate};
ghost use Rattle.nm_service.specs.Orders.{Begins, IsMoving, IsReplaced, at_rest, order_of};
ghost use Rattle.nm_service.specs.Orders.{stays_out, with_order};
ghost use Rattle.nm_service.specs.declared.leg_orders.LegOrder.TheVariants as order;

/// How many legs there are at most.
const MOST_LEGS: usize = 8;

/// What is ordered of a leg.
#[derive(Clone, Copy, PartialEq, Eq)]
pub enum LegOrder {
    /// Nothing: where it goes out by a fault it may be attached again by itself.
    Free,
    /// It stays out: somebody took it out.
    StaysOut,
    /// It is being taken out or attached. Whether it stayed out before.
    Moving(bool),
    /// It is being replaced, or taken out for good. Whether it stayed out before.
    Replacing(bool),
}

/// What is ordered of each leg, of eight at most.
#[derive(Clone, Copy)]
pub struct LegOrders {
    legs: [LegOrder; MOST_LEGS],
}

impl LegOrders {
    /// Nothing is ordered of any leg.
    pub fn new() -> LegOrders
        ensures { result.legs ≡ replicate 8 order.Free }
    {
        LegOrders {
            legs: [LegOrder::Free; MOST_LEGS],
        }
    }

    /// What is ordered of the leg: none past the eighth.
    fn of(&self, leg: u8) -> Option<LegOrder>
        ensures { result ≡ order_of leg self.now }
    {
        match self.legs.get(leg as usize) {
            Some(order) => Some(*order),
            None => None,
        }
    }

    /// This is ordered of the leg from now on.
    fn put(&mut self, leg: u8, order: LegOrder)
        ensures { self.new ≡ with_order leg order self.old }
    {
        if (leg as usize) < MOST_LEGS {
            self.legs[leg as usize] = order;
        }
    }

    /// Whether the leg stays out, where no command on it is under way.
    pub fn stays_out(&self, leg: u8) -> Option<bool>
        ensures { result ≡ stays_out (order_of leg self.now) }
    {
        match self.of(leg) {
            Some(LegOrder::Free) => Some(false),
            Some(LegOrder::StaysOut) => Some(true),
            Some(LegOrder::Moving(_) | LegOrder::Replacing(_)) | None => None,
        }
    }

    /// Whether the leg is being taken out or attached.
    pub fn is_moving(&self, leg: u8) -> bool
        ensures { IsTrue result ↔ IsMoving (order_of leg self.now) }
    {
        matches!(self.of(leg), Some(LegOrder::Moving(_)))
    }

    /// Whether the leg is being replaced, or taken out for good.
    pub fn is_replaced(&self, leg: u8) -> bool
        ensures { IsTrue result ↔ IsReplaced (order_of leg self.now) }
    {
        matches!(self.of(leg), Some(LegOrder::Replacing(_)))
    }

    /// Begins to take the leg out or to attach it, and says whether it stayed out before. None
    /// where a command on it is under way: then nothing changes.
    pub fn begin_move(&mut self, leg: u8) -> Option<bool>
        ensures { Begins order.Moving leg result self.old self.new }
    {
        let was_out = self.stays_out(leg)?;
        self.put(leg, LegOrder::Moving(was_out));
        Some(was_out)
    }

    /// Begins to replace the leg, or to take it out for good, and says whether it stayed out
    /// before. None where a command on it is under way: then nothing changes.
    pub fn begin_replace(&mut self, leg: u8) -> Option<bool>
        ensures { Begins order.Replacing leg result self.old self.new }
    {
        let was_out = self.stays_out(leg)?;
        self.put(leg, LegOrder::Replacing(was_out));
        Some(was_out)
    }

    /// Ends the command on the leg: whether it stays out from now on.
    pub fn end(&mut self, leg: u8, stays_out: bool)
        ensures { self.new ≡ with_order leg (at_rest stays_out) self.old }
    {
        let order = if stays_out {
            LegOrder::StaysOut
        } else {
            LegOrder::Free
        };
        self.put(leg, order);
    }
}
