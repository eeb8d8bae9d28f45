ghost use Rattle.routes.specs.RouteLaws.{RowIsKnown, RouteIsAsLong};

/// Laws of routes, and of the rows by which they are found, in any network.
pub fn laws_of_routes()
    ensures row { RowIsKnown }
    ensures long { RouteIsAsLong }
{}
