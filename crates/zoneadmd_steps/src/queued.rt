//! A request as it waits on a desk.
ghost use Rattle.std.specs.Prelude.{◌≡◌, IfOk};
ghost use Rattle.zoneadmd_steps.specs.Code.Queues.{room_of};
ghost use Rattle.zoneadmd_steps.specs.Plans.{halt_part};

use crate::plan_steps::Plan;
use crate::plans::halt_plan;
use crate::requests::Request;
use std::alloc::{AllocError, Global};
use std::marker::Model;

/// A request that waits on a desk. A halt has its plan already, so that no turn of it takes memory. Contracts see the
/// request.
#[derive(Drop)]
pub struct QueuedRequest {
    request: Request,
    plan: Plan,
}

impl Model for QueuedRequest {
    ghost use Rattle.std.specs.Prelude.{◌≡◌};
    ghost use Rattle.zoneadmd_steps.specs.Code.Queues.{room_of};
    ghost use Rattle.zoneadmd_steps.specs.declared.requests.Request.{Request};

    ghost Value = { Request };

    ghost view = { λ q. q.request };

    ghost invariant = { λ q. q.plan ≡ room_of q.request };
}

// The plan of a halt, and of no other request.
fn room_of(alloc: Global, request: &Request) -> Result<Plan, AllocError>
    ensures { IfOk result (λ plan. plan ≡ room_of request.now) }
{
    match request {
        Request::Halt => halt_plan(alloc),
        _ => Ok(Plan::of(Vec::new(alloc))),
    }
}

impl QueuedRequest {
    /// The request, ready to wait.
    pub fn new(alloc: Global, request: Request) -> Result<Self, AllocError>
        ensures { IfOk result (λ queued. queued ≡ request) }
    {
        let plan = room_of(alloc, &request)?;
        Ok(Self { request, plan })
    }

    /// The request itself.
    pub fn request(&self) -> &Request
        ensures { result.now ≡ self.now }
    {
        &self.request
    }

    /// The plan of a halt.
    pub(crate) fn into_halt_plan(self) -> Plan
        requires { self ≡ Request.Halt }
        ensures { result ≡ halt_part }
    {
        self.plan
    }
}
