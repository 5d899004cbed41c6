//! What may cross threads. Each law is the contract of a function that does nothing.
ghost use Rattle.std.specs.Thread.{IsSend, IsSync};
ghost use Rattle.jschema_c.specs.contracts.session.Session as Sessions;

use crate::last_call::LastCall;
use js_bundle::sharing_laws::schemas_cross;
use js_bundle::{Bundle, Place};
use js_output::Limits;

/// What a handle holds may go to another thread, at any time between two calls.
pub fn sessions_cross()
    ensures send { IsSend Sessions.the_row }
    ensures sync { IsSync Sessions.the_row }
{
    schemas_cross();
    crosses::<Bundle>();
    crosses::<Limits>();
    crosses::<Vec<Place>>();
    crosses::<LastCall>();
}

// What is asked, as a fact.
fn crosses<T: Send + Sync>()
    ensures send { IsSend T.row }
    ensures sync { IsSync T.row }
{}
