//! Tests of dictionaries, by subject.
mod answers;
mod applications;
mod counters;
mod examples;
mod failed;
mod groups;
mod judged;
mod listed;
mod listed_values;
mod long_rules;
mod printed;
mod rows;
mod rules;
mod types;
mod values;
mod verdicts;
