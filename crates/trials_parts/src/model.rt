//! Tests of models and of what is built over them: texts, checks, values, facts, messages, links,
//! and what a machine is asked.

mod commands;
mod counts;
mod facts;
mod links;
mod logs;
mod messages;
mod rewriting;
mod texts;
mod values;
