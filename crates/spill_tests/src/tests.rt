// Consumers that are fed and spilled, by hand and beside std, an account of a task, workers at once, and a task's memory, by
// scripts of what is called.
mod accounts;
mod at_once;
mod choice_scripts;
mod consumer_steps;
mod consumer_task;
mod grouped;
mod lives;
mod maps;
mod memories;
mod nested_scripts;
mod part_scripts;
mod playing;
mod scripts;
mod sorted;
mod sorters;
mod spillers;
mod steps;
mod texts;
mod threads;
