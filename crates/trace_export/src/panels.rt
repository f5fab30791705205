use crate::cells::{Cell, Form, float32_of, float64_of};
use std::alloc::{AllocError, Global};
use std::num::{f32_to_f64_with_nan, nearest_i64_to_f64, nearest_u64_to_f64};

/// How many places a picture has from side to side.
pub(crate) const PLACES: usize = 720;

/// What a port did within one place.
#[derive(Clone, Copy, Debug)]
pub(crate) struct Place {
    /// Whether there is an instant.
    pub(crate) is_reached: bool,
    /// The value with which the place begins, none where there is a gap.
    pub(crate) first: Option<f64>,
    pub(crate) low: f64,
    pub(crate) high: f64,
    /// The value with which the place ends, none where there is a gap.
    pub(crate) last: Option<f64>,
}

/// What a port did, in memory that doesn't grow with the trace.
#[derive(Debug, Drop)]
pub(crate) struct Panel {
    pub(crate) port: usize,
    pub(crate) places: Vec<Place>,
    /// the least and the greatest value
    pub(crate) low: Option<(f64, Cell)>,
    pub(crate) high: Option<(f64, Cell)>,
}

impl Panel {
    pub(crate) fn new(alloc: Global, port: usize) -> Result<Panel, AllocError> {
        let mut places = Vec::with_capacity(alloc, PLACES)?;
        for _ in 0..PLACES {
            places.push(Place {
                is_reached: false,
                first: None,
                low: 0.0,
                high: 0.0,
                last: None,
            })?;
        }
        Ok(Panel {
            port,
            places,
            low: None,
            high: None,
        })
    }

    /// Takes what the port has in an instant at a place.
    pub(crate) fn take(&mut self, at: usize, cell: Cell) {
        let value = height_of(cell);
        if let Some(place) = self.places.get_mut(at) {
            place_value(place, value);
        }
        if let Some(value) = value {
            self.widen(value, cell);
        }
    }

    fn widen(&mut self, value: f64, cell: Cell) {
        let is_lower = match self.low {
            Some((low, _)) => value < low,
            None => true,
        };
        if is_lower {
            self.low = Some((value, cell));
        }
        let is_higher = match self.high {
            Some((high, _)) => high < value,
            None => true,
        };
        if is_higher {
            self.high = Some((value, cell));
        }
    }
}

fn place_value(place: &mut Place, value: Option<f64>) {
    if let Some(value) = value {
        if place.first.is_some() {
            place.low = place.low.min(value);
            place.high = place.high.max(value);
        } else {
            place.first = Some(value);
            place.low = value;
            place.high = value;
        }
    }
    place.last = value;
    place.is_reached = true;
}

/// Where a cell stands: none where it has no value, or one that is no finite number.
pub(crate) fn height_of(cell: Cell) -> Option<f64> {
    let height = match cell.form {
        Form::Whole => whole_height(cell.value?),
        Form::Float64 => float64_of(cell.value?),
        Form::Float32 => f32_to_f64_with_nan(float32_of(cell.value?)),
    };
    if height.is_finite() {
        Some(height)
    } else {
        None
    }
}

fn whole_height(value: i128) -> f64 {
    match i64::try_from(value) {
        Ok(value) => nearest_i64_to_f64(value),
        Err(_) => match u64::try_from(value) {
            Ok(value) => nearest_u64_to_f64(value),
            Err(_) => 0.0,
        },
    }
}
