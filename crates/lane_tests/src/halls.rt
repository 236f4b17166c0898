//! A hall over the world of a journal, asked by several callers.

mod asks;
mod crowds;
mod doors;
mod histories;
mod patient_gate;
mod rows;
mod worlds;
