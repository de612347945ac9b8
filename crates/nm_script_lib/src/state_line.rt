//! The line that shows the state of a stripe.
ghost use Rattle.std.specs.Prelude.{◌≡◌, ℕ, ◌<◌, ◌++◌, false, length, OnOk};
ghost use Rattle.nm_script_lib.specs.Printing.{ended_line};
ghost use Rattle.nm_rules.specs.State.{leg_state, left};
ghost use Rattle.nm_script_lib.specs.StateLine.{leg_text, legs_text, running_text, state_text};

use crate::power_leg::PowerLeg;
use crate::printing::{put, put_number};
use nm_stripe::{LegState, Stripe};
use std::alloc::AllocError;

/// Adds the state of a leg to a text.
fn put_leg(text: &mut Vec<u8>, stripe: &Stripe<PowerLeg>, leg: u8) -> Result<(), AllocError>
    requires { leg < length stripe.now.legs }
    ensures { OnOk result (text.new.items ≡ text.old.items
        ++ leg_text (leg_state leg stripe.now) (left leg stripe.now)) }
{
    match stripe.state(leg) {
        LegState::InSync => put(text, b" in"),
        LegState::Joining => {
            put(text, b" join(")?;
            put_number(text, stripe.left(leg))?;
            put(text, b")")
        }
        LegState::Out => put(text, b" out"),
    }
}

/// Adds the states of all legs, which are this many, to a text.
fn put_legs(text: &mut Vec<u8>, stripe: &Stripe<PowerLeg>, legs: u8) -> Result<(), AllocError>
    requires { length stripe.now.legs ≡ legs }
    ensures { OnOk result (text.new.items ≡ text.old.items ++ legs_text stripe.now legs 0) }
{
    for leg in 0..legs {
        put_leg(text, stripe, leg)?;
    }
    Ok(())
}

/// Adds the state of a running stripe of so many legs to a text.
fn put_running(text: &mut Vec<u8>, stripe: &Stripe<PowerLeg>, legs: u8) -> Result<(), AllocError>
    requires { length stripe.now.legs ≡ legs }
    ensures { OnOk result (text.new.items ≡ text.old.items ++ running_text stripe.now) }
{
    put(text, b"master ")?;
    put_number(text, u64::from(stripe.master()))?;
    put(text, b" settling ")?;
    put(text, if stripe.is_settling() { b"yes" } else { b"no" })?;
    put(text, b" legs")?;
    put_legs(text, stripe, legs)
}

/// Adds the line of the state of a stripe of so many legs to a text.
pub fn put_state(text: &mut Vec<u8>, stripe: &Stripe<PowerLeg>, legs: u8) -> Result<(), AllocError>
    requires { length stripe.now.legs ≡ legs }
    ensures { OnOk result (text.new.items ≡ text.old.items ++ ended_line (state_text stripe.now)) }
{
    if stripe.is_stopped() {
        return put(text, b"stopped\n");
    }
    put_running(text, stripe, legs)?;
    put(text, b"\n")
}
