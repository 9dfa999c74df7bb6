//! Which call a request is, and of which tenant.
ghost use Rattle.gateway_http.specs.Requests.{IsRouteOf};

use etcd_types::Refusal;
use gateway_json::{call_of, target_of};
use pending_calls::{Jobs, Route};
use std::sync::Wait;

/// The route of a request: the path, the tenant and the method are looked at in this order.
pub(crate) fn route<R: Wait + Drop>(
    rt: &R,
    jobs: &Jobs<R>,
    method: &[u8],
    path: &[u8],
) -> Result<Route, Refusal>
    ensures { IsRouteOf method.now path.now result }
{
    let Some(target) = target_of(path) else {
        return Err(Refusal::NoPath);
    };
    let Some(call) = call_of(target.path) else {
        return Err(Refusal::NoPath);
    };
    let Ok(found) = jobs.tenant(rt, target.tenant) else {
        return Err(Refusal::Memory);
    };
    let Some(tenant) = found else {
        return Err(Refusal::NoTenant);
    };
    if method != b"POST".as_slice() {
        return Err(Refusal::NotPost);
    }
    Ok(Route { tenant, call })
}
