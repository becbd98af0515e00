// The calls of the stages. Each is a function of its own, which promises nothing.
use delay_management::make_disposition;
use demand_load::make_load;
use evaluators::make_statistic;
use event_activity::make_ean;
use giv_files::{Bundle, Made, Stage, StageFault};
use line_pool::make_cost;
use line_search::{make_concept, take_concept};
use pesp_search::{make_timetable, take_timetable};
use plan_num::{Steps, Tally};
use roll_out::make_rollout;
use std::alloc::Global;
use vehicle_flow::{make_vehicles, take_vehicles};

type Outcome = Option<Result<Made, StageFault>>;

/// What the stage of a bundle gives; nothing where the bundle does not fit.
pub(crate) fn called(alloc: Global, bundle: &Bundle, steps: &mut Steps<Tally>) -> Outcome {
    match bundle.stage() {
        Stage::Load => load(alloc, bundle, steps),
        Stage::Cost => cost(alloc, bundle, steps),
        Stage::Concept => concept(alloc, bundle, steps),
        Stage::Ean => ean(alloc, bundle, steps),
        Stage::Timetable => timetable(alloc, bundle, steps),
        Stage::Rollout => rollout(alloc, bundle, steps),
        Stage::Vehicles => vehicles(alloc, bundle, steps),
        Stage::Disposition => disposition(alloc, bundle, steps),
        Stage::Statistic => statistic(alloc, bundle, steps),
        Stage::PinnedTimetable => pinned_times(alloc, bundle, steps),
        Stage::PinnedVehicles => pinned_schedule(alloc, bundle, steps),
        Stage::PinnedConcept => pinned_concept(alloc, bundle, steps),
    }
}

fn load(alloc: Global, bundle: &Bundle, steps: &mut Steps<Tally>) -> Outcome {
    if bundle.stage() != Stage::Load || !bundle.fits() {
        return None;
    }
    Some(make_load(alloc, bundle, steps))
}

fn cost(alloc: Global, bundle: &Bundle, steps: &mut Steps<Tally>) -> Outcome {
    if bundle.stage() != Stage::Cost || !bundle.fits() {
        return None;
    }
    Some(make_cost(alloc, bundle, steps))
}

fn concept(alloc: Global, bundle: &Bundle, steps: &mut Steps<Tally>) -> Outcome {
    if bundle.stage() != Stage::Concept || !bundle.fits() {
        return None;
    }
    Some(make_concept(alloc, bundle, steps))
}

fn ean(alloc: Global, bundle: &Bundle, steps: &mut Steps<Tally>) -> Outcome {
    if bundle.stage() != Stage::Ean || !bundle.fits() {
        return None;
    }
    Some(make_ean(alloc, bundle, steps))
}

fn timetable(alloc: Global, bundle: &Bundle, steps: &mut Steps<Tally>) -> Outcome {
    if bundle.stage() != Stage::Timetable || !bundle.fits() {
        return None;
    }
    Some(make_timetable(alloc, bundle, steps))
}

fn rollout(alloc: Global, bundle: &Bundle, steps: &mut Steps<Tally>) -> Outcome {
    if bundle.stage() != Stage::Rollout || !bundle.fits() {
        return None;
    }
    Some(make_rollout(alloc, bundle, steps))
}

fn vehicles(alloc: Global, bundle: &Bundle, steps: &mut Steps<Tally>) -> Outcome {
    if bundle.stage() != Stage::Vehicles || !bundle.fits() {
        return None;
    }
    Some(make_vehicles(alloc, bundle, steps))
}

fn disposition(alloc: Global, bundle: &Bundle, steps: &mut Steps<Tally>) -> Outcome {
    if bundle.stage() != Stage::Disposition || !bundle.fits() {
        return None;
    }
    Some(make_disposition(alloc, bundle, steps))
}

fn statistic(alloc: Global, bundle: &Bundle, steps: &mut Steps<Tally>) -> Outcome {
    if bundle.stage() != Stage::Statistic || !bundle.fits() {
        return None;
    }
    Some(make_statistic(alloc, bundle, steps))
}

fn pinned_times(alloc: Global, bundle: &Bundle, steps: &mut Steps<Tally>) -> Outcome {
    if bundle.stage() != Stage::PinnedTimetable || !bundle.fits() {
        return None;
    }
    Some(take_timetable(alloc, bundle, steps))
}

fn pinned_schedule(alloc: Global, bundle: &Bundle, steps: &mut Steps<Tally>) -> Outcome {
    if bundle.stage() != Stage::PinnedVehicles || !bundle.fits() {
        return None;
    }
    Some(take_vehicles(alloc, bundle, steps))
}

fn pinned_concept(alloc: Global, bundle: &Bundle, steps: &mut Steps<Tally>) -> Outcome {
    if bundle.stage() != Stage::PinnedConcept || !bundle.fits() {
        return None;
    }
    Some(take_concept(alloc, bundle, steps))
}
