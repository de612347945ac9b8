//! Metrics as text, line by line, in the form that Prometheus reads.

use nm_service::{put_heading, put_sample};
use std::alloc::{AllocError, Global};

/// How many microseconds a second has.
const SECOND: u64 = 1_000_000;

/// Metrics as text, to which lines are added.
#[derive(Drop)]
pub struct MetricsPage<'a> {
    alloc: Global,
    text: &'a mut String,
}

impl<'a> MetricsPage<'a> {
    /// The metrics go to the end of this text.
    pub fn new(alloc: Global, text: &'a mut String) -> MetricsPage<'a> {
        MetricsPage { alloc, text }
    }

    /// Where memory comes from.
    pub fn alloc(&self) -> Global {
        self.alloc
    }

    /// Begins a metric that only grows.
    pub fn begin_counter(&mut self, name: &str, help: &str) -> Result<(), AllocError> {
        put_heading(self.text, name, "counter", help)
    }

    /// Begins a metric that goes up and down.
    pub fn begin_gauge(&mut self, name: &str, help: &str) -> Result<(), AllocError> {
        put_heading(self.text, name, "gauge", help)
    }

    /// Begins a metric of times in buckets.
    pub fn begin_histogram(&mut self, name: &str, help: &str) -> Result<(), AllocError> {
        put_heading(self.text, name, "histogram", help)
    }

    /// Puts a number that only grows, the only one of its metric.
    pub fn put_counter(&mut self, name: &str, help: &str, value: u64) -> Result<(), AllocError> {
        self.begin_counter(name, help)?;
        self.put(name, "", value)
    }

    /// Puts a number that goes up and down, the only one of its metric.
    pub fn put_gauge(&mut self, name: &str, help: &str, value: u64) -> Result<(), AllocError> {
        self.begin_gauge(name, help)?;
        self.put(name, "", value)
    }

    /// Puts a number under these labels.
    pub fn put(&mut self, name: &str, labels: &str, value: u64) -> Result<(), AllocError> {
        let value = format!(in self.alloc; "{value}")?;
        put_sample(self.text, name, labels, value.as_str())
    }

    /// Puts a time under these labels, in seconds.
    pub fn put_time(
        &mut self,
        name: &str,
        labels: &str,
        microseconds: u64,
    ) -> Result<(), AllocError> {
        let value = seconds(self.alloc, microseconds)?;
        put_sample(self.text, name, labels, value.as_str())
    }

    /// Puts how many calls took so long, each bucket with all below it, under the label
    /// `operation`.
    pub fn put_buckets(
        &mut self,
        name: &str,
        operation: &str,
        buckets: &[u64],
    ) -> Result<(), AllocError> {
        let (mut count, mut end) = (0u64, 1u64);
        for (number, own) in buckets.iter().enumerate() {
            count = count.saturating_add(*own);
            let is_last = number + 1 >= buckets.len();
            let labels = labels_of_bucket(self.alloc, operation, end, is_last)?;
            self.put(name, labels.as_str(), count)?;
            end = end.saturating_mul(2);
        }
        Ok(())
    }
}

// The labels of the bucket that ends at so many microseconds: the last one takes all above too.
fn labels_of_bucket(
    alloc: Global,
    operation: &str,
    end: u64,
    is_last: bool,
) -> Result<String, AllocError> {
    let limit = if is_last {
        String::from_str(alloc, "+Inf")?
    } else {
        seconds(alloc, end)?
    };
    format!(in alloc; "operation=\"{operation}\",le=\"{limit}\"")
}

// So many microseconds, in seconds.
fn seconds(alloc: Global, microseconds: u64) -> Result<String, AllocError> {
    let (whole, part) = (microseconds / SECOND, microseconds % SECOND);
    format!(in alloc; "{whole}.{part:06}")
}
