// Each test goes over a table.
mod banks;
mod loads;
mod order;
mod reading;
