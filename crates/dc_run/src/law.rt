//! The law that subscripts lead back to their element.

ghost use Rattle.std.specs.Prelude.{◌≡◌, ◌<◌, ℕ, Some};
ghost use Rattle.dc_int.specs.Store.{Bounds, elements_in, position_in};
ghost use Rattle.dc_run.specs.ReportLine.{subscripts_at};

/// The subscripts that a report gives for an element of an array are those of that element.
pub fn subscripts_lead_back()
    ensures { (bounds : Bounds) (position : ℕ) → position < elements_in bounds
        → position_in bounds (subscripts_at bounds position) ≡ Some position }
{}
