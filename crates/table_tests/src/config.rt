// Datasets with known settings or faults.
use crate::script::{cases, cut, same};
use crate::settings::{key_named, stages};
use config_keys::{Config, ConfigEnd, ConfigFault, read_config};
use giv_files::{Key, Stage};
use plan_files::{Files, MemoryFiles, SteadyFiles};
use plan_num::Text;
use std::alloc::{AllocError, Global};
use std::process::Abort;
use std::test::Fail;

// The files of folder `basis`, each as `name:text&`.
fn files_of(alloc: Global, texts: &str) -> Result<SteadyFiles, Fail> {
    let mut files = SteadyFiles::new(alloc);
    for file in &cases(alloc, texts, '&')? {
        let (name, text) = cut(*file, ':');
        let path = format!(in alloc; "basis/{name}")?;
        files.put(path.as_str(), text.as_bytes())?;
    }
    Ok(files)
}

fn name_of(name: &Text) -> &str {
    str::from_utf8(name.as_bytes()).unwrap_or("no text")
}

// A fault in words, where it names a row.
fn row_told(alloc: Global, name: &Text, row: u64, why: &str) -> Result<String, AllocError> {
    format!(in alloc; "{} row {row}: {why}", name_of(name))
}

// A fault in words.
fn told(alloc: Global, fault: &ConfigFault) -> Result<String, AllocError> {
    match fault {
        ConfigFault::BadRow { name, row, why } => {
            let why = why.to_string(alloc)?;
            row_told(alloc, name, *row, why.as_str())
        }
        ConfigFault::MissingInclude { name } => format!(in alloc; "{} is missing", name_of(name)),
        ConfigFault::IncludeOutside { name, row } => row_told(alloc, name, *row, "outside"),
        ConfigFault::TooDeep { name, row } => row_told(alloc, name, *row, "too deep"),
        ConfigFault::TooManyIncludes { name, row } => row_told(alloc, name, *row, "too many"),
        ConfigFault::TooLong { name } => format!(in alloc; "{} is too long", name_of(name)),
        ConfigFault::BadValue { key } => format!(in alloc; "value of {}", key.name()),
    }
}

// The value of a key, or why there is none.
fn value_told(
    alloc: Global,
    read: &Result<Config, ConfigEnd>,
    key: Key,
) -> Result<String, AllocError> {
    match read {
        Ok(config) => config.value(key).to_string(alloc),
        Err(ConfigEnd::Refused(fault)) => told(alloc, fault),
        Err(ConfigEnd::FileFault) => String::from_str(alloc, "file fault"),
        Err(ConfigEnd::NoMemory) => String::from_str(alloc, "no memory"),
    }
}

// The settings of files, of which nothing is promised here.
fn config_of(alloc: Global, files: &mut SteadyFiles) -> Result<Config, ConfigEnd> {
    read_config(alloc, files)
}

// The value of a key under these files, or why there is none. No file is changed.
fn read_told(alloc: Global, key: Key, texts: &str) -> Result<String, Fail> {
    let mut files = files_of(alloc, texts)?;
    let writes = files.write_count();
    let read = config_of(alloc, &mut files);
    if files.write_count() != writes {
        return Err(Fail::from("a file was changed"));
    }
    Ok(value_told(alloc, &read, key)?)
}

// Reads the settings of a case, `key|value or fault|files`.
fn read_case(rt: &(impl AllocGlobal + Abort), case: &str) -> Result<(), Fail> {
    let (key, rest) = cut(case, '|');
    let (wanted, texts) = cut(rest, '|');
    let told = read_told(rt.alloc(), key_named(key)?, texts)?;
    same(rt, told.as_str(), wanted, case);
    Ok(())
}

// Reads each case, and tells how many there are.
fn read_each(rt: &(impl AllocGlobal + Abort), script: &str) -> Result<usize, Fail> {
    let cases = cases(rt.alloc(), script, '~')?;
    for case in &cases {
        read_case(rt, *case)?;
    }
    Ok(cases.len())
}

const VALUES: &str = "period_length|60|~\
    last_stage|8|Config.cnf:&~\
    period_length|30|Config.cnf:period_length; 20\nperiod_length; 30\n&~\
    period_length|60|Config.cnf:period; 20\nPeriod_length; x\n&~\
    period_length|20|Config.cnf:period_length; 20; \n&~\
    period_length|basis/Config.cnf row 2: wrong number of fields|\
    Config.cnf:load_spread; 2\nperiod_length;\n&~\
    period_length|basis/Config.cnf row 2: wrong number of fields|\
    Config.cnf:# a\nperiod_length; 1; 2\n&~\
    period_length|basis/Config.cnf row 1: byte order mark|\
    Config.cnf:\u{feff}period_length; 20\n&~\
    period_length|value of period_length|Config.cnf:period_length; \"\"\n&~\
    period_length|7|Config.cnf:period_length; \"\"\nperiod_length; 7\n&~\
    period_length|5|Config.cnf:period_length; 5.0\n&~\
    period_length|value of period_length|Config.cnf:period_length; 5.5\n&~\
    period_length|value of period_length|Config.cnf:period_length; 0\n&~\
    period_length|720|Config.cnf:period_length; 720\n&~\
    period_length|value of period_length|Config.cnf:period_length; 721\n&~\
    dm_wait|-1|Config.cnf:dm_wait; all\n&~\
    dm_wait|-2|Config.cnf:dm_wait; none\n&~\
    dm_wait|0|Config.cnf:dm_wait; 0\n&~\
    dm_wait|value of dm_wait|Config.cnf:dm_wait; -1\n&~\
    dm_wait|value of dm_wait|Config.cnf:dm_wait; All\n&~\
    load_source|1|Config.cnf:load_source; file\n&~\
    last_stage|3|Config.cnf:last_stage; ean\n&~\
    last_stage|value of last_stage|Config.cnf:last_stage; Ean\n&~\
    lpool_costs_length|10000000000|Config.cnf:lpool_costs_length; 10000.0000001\n&~\
    vs_empty_costs|123456|Config.cnf:vs_empty_costs; 0.1234567\n&~\
    period_length|value of ean_default_maximal_waiting_time|\
    Config.cnf:ean_default_maximal_waiting_time; 0\n&~\
    period_length|value of ean_default_maximal_change_time|\
    Config.cnf:ean_default_minimal_change_time; 63\n&~\
    ean_headway|30|Config.cnf:ean_headway; 30\n&~\
    ean_headway|value of ean_headway|Config.cnf:ean_headway; 31\n&~\
    ean_headway|360|Config.cnf:ean_headway; 360\nperiod_length; 720\n&~\
    ean_headway|value of ean_headway|Config.cnf:ean_headway; 361\nperiod_length; 720\n&~\
    period_length|value of DM_latest_time|Config.cnf:DM_latest_time; 299\ndm_wait; x\n&~\
    period_length|value of load_source|Config.cnf:DM_latest_time; 299\nload_source; x\n&~\
    DM_earliest_time|1380|Config.cnf:DM_earliest_time; 1380\nDM_latest_time; 1380\n&~";

#[test]
fn values_of_rows(rt: HostRuntime) -> Result<(), Fail> {
    let count = read_each(&rt, VALUES)?;
    assert_eq!(rt; count, 34);
    Ok(())
}

const INCLUDES: &str = "period_length|30|\
    Config.cnf:period_length; 20\ninclude; \"a.cnf\"\n&a.cnf:period_length; 30\n&~\
    period_length|20|\
    Config.cnf:include; \"a.cnf\"\nperiod_length; 20\n&a.cnf:period_length; 30\n&~\
    period_length|60|Config.cnf:include_if_exists; a.cnf\n&~\
    period_length|30|Config.cnf:include_if_exists; a.cnf\n&a.cnf:period_length; 30\n&~\
    period_length|basis/a.cnf is missing|Config.cnf:include; a.cnf\nx\n&~\
    period_length|basis/a.cnf row 1: wrong number of fields|\
    Config.cnf:include; a.cnf\n&a.cnf:\nperiod_length\n&~\
    period_length|basis/Config.cnf row 1: outside|Config.cnf:include; ../x.cnf\n&~\
    period_length|basis/Config.cnf row 1: outside|Config.cnf:include; a/b.cnf\n&~\
    period_length|basis/Config.cnf row 1: outside|Config.cnf:include_if_exists; \"x.cnf \"\n&~\
    period_length|basis/Config.cnf row 1: outside|Config.cnf:include_if_exists; X.CNF\n&~\
    period_length|basis/Config.cnf row 1: outside|Config.cnf:include_if_exists; a..cnf\n&~\
    period_length|basis/Config.cnf row 1: outside|Config.cnf:include_if_exists; \u{e4}.cnf\n&~\
    period_length|60|Config.cnf:include_if_exists; .cnf\n&~\
    period_length|basis/Config.cnf row 1: too deep|Config.cnf:include; Config.cnf\n&~\
    period_length|8|Config.cnf:include; 1.cnf\n&1.cnf:include; 2.cnf\n&2.cnf:include; 3.cnf\n&\
    3.cnf:include; 4.cnf\n&4.cnf:include; 5.cnf\n&5.cnf:include; 6.cnf\n&6.cnf:include; 7.cnf\n&\
    7.cnf:include; 8.cnf\n&8.cnf:period_length; 8\n&~\
    period_length|basis/8.cnf row 2: too deep|\
    Config.cnf:include; 1.cnf\n&1.cnf:include; 2.cnf\n&2.cnf:include; 3.cnf\n&\
    3.cnf:include; 4.cnf\n&4.cnf:include; 5.cnf\n&5.cnf:include; 6.cnf\n&6.cnf:include; 7.cnf\n&\
    7.cnf:include; 8.cnf\n&8.cnf:period_length; 8\ninclude_if_exists; 9.cnf\n&~\
    period_length|30|Config.cnf:include; a.cnf\nperiod_length; 20\ninclude; a.cnf\n&\
    a.cnf:period_length; 20\nperiod_length; 30\n&~\
    period_length|20|Config.cnf:include; a.cnf\ninclude; b.cnf\ninclude; a.cnf\n&\
    a.cnf:period_length; 30\ninclude_if_exists; b.cnf\n&b.cnf:period_length; 20\n&~\
    period_length|basis/8.cnf row 2: too deep|\
    Config.cnf:include; 8.cnf\ninclude; 1.cnf\n&1.cnf:include; 2.cnf\n&2.cnf:include; 3.cnf\n&\
    3.cnf:include; 4.cnf\n&4.cnf:include; 5.cnf\n&5.cnf:include; 6.cnf\n&6.cnf:include; 7.cnf\n&\
    7.cnf:include; 8.cnf\n&8.cnf:period_length; 8\ninclude_if_exists; 9.cnf\n&~\
    period_length|basis/a.cnf row 2: outside|\
    Config.cnf:include_if_exists; a.cnf\n&a.cnf:period_length; 30\ninclude; a/b.cnf\nx\n&~";

#[test]
fn included_files(rt: HostRuntime) -> Result<(), Fail> {
    let count = read_each(&rt, INCLUDES)?;
    assert_eq!(rt; count, 20);
    Ok(())
}

// How many calls on files there were once these files are put and their settings are read.
fn calls_for(alloc: Global, texts: &str) -> Result<u64, Fail> {
    let mut files = MemoryFiles::new(alloc);
    for file in &cases(alloc, texts, '&')? {
        let (name, text) = cut(*file, ':');
        let path = format!(in alloc; "basis/{name}")?;
        files.put(path.as_str(), text.as_bytes())?;
    }
    match read_config(alloc, &mut files) {
        Ok(_) => Ok(files.calls()),
        Err(_) => Err(Fail::from("refused")),
    }
}

// A file is read once, and one that is not there is looked for each time.
#[test]
fn a_file_is_read_once(rt: HostRuntime) -> Result<(), Fail> {
    let twice = "Config.cnf:include; a.cnf\ninclude; a.cnf\n&a.cnf:period_length; 30\n&";
    assert_eq!(rt; calls_for(rt.alloc(), twice)?, 4);
    let absent = "Config.cnf:include_if_exists; a.cnf\ninclude_if_exists; a.cnf\n&";
    assert_eq!(rt; calls_for(rt.alloc(), absent)?, 4);
    Ok(())
}

// The length of a period by a config file, or why there is none.
fn period_told(alloc: Global, text: &[u8]) -> Result<String, Fail> {
    let mut files = SteadyFiles::new(alloc);
    files.put("basis/Config.cnf", text)?;
    let read = config_of(alloc, &mut files);
    Ok(value_told(alloc, &read, Key::PeriodLength)?)
}

#[test]
fn most_includes(rt: HostRuntime) -> Result<(), Fail> {
    let include = "include_if_exists; \"no.cnf\"\n";
    let mut text = include.repeat(rt.alloc(), 1_000)?;
    let most = period_told(rt.alloc(), text.as_bytes())?;
    same(&rt, most.as_str(), "60", "");
    text.push_str(include)?;
    let more = period_told(rt.alloc(), text.as_bytes())?;
    same(
        &rt,
        more.as_str(),
        "basis/Config.cnf row 1001: too many",
        "",
    );
    Ok(())
}

// Reads a config file of so many bytes, all of them in a comment.
fn read_comment(alloc: Global, size: usize) -> Result<String, Fail> {
    let text = vec![in alloc; b'#'; size]?;
    period_told(alloc, text.as_slice())
}

#[test]
fn longest_file(rt: HostRuntime) -> Result<(), Fail> {
    let told = read_comment(rt.alloc(), 64 << 20)?;
    same(&rt, told.as_str(), "60", "");
    Ok(())
}

#[test]
fn too_long_file(rt: HostRuntime) -> Result<(), Fail> {
    let told = read_comment(rt.alloc(), (64 << 20) + 1)?;
    same(&rt, told.as_str(), "basis/Config.cnf is too long", "");
    Ok(())
}

// A config file, and the settings of each stage under it.
const CONFIG: &str = "load_source; file\nperiod_length; 20\nean_default_minimal_change_time; 2\n\
    DM_earliest_time; 0\nDM_latest_time; 20\nvs_turn_over_time; 2\n";

const SETTINGS: &str = "load: 1 70 3\n\
    cost: 10000000 1000000 0\n\
    concept: 5000\n\
    ean: 20 1 3 2 62 0\n\
    timetable: 20 100000\n\
    rollout: 20 0 20\n\
    vehicles: 2 100000000 1000000\n\
    disposition: 2 3\n\
    statistic: 20 100000000 1000000\n\
    pinned-concept:\n\
    pinned-timetable: 20\n\
    pinned-vehicles: 2 100000000 1000000\n";

// Appends the line of a stage with the values of its settings.
fn push_stage(alloc: Global, text: &mut String, config: &Config, stage: Stage) -> Result<(), Fail> {
    text.push_str(stage.name())?;
    text.push_str(":")?;
    for setting in config.stage_settings(alloc, stage)?.as_slice() {
        let value = setting.value;
        text.push_str(format!(in alloc; " {value}")?.as_str())?;
    }
    text.push_str("\n")?;
    Ok(())
}

// The settings under that file.
fn config_read(alloc: Global) -> Result<Config, Fail> {
    let mut files = SteadyFiles::new(alloc);
    files.put("basis/Config.cnf", CONFIG.as_bytes())?;
    match config_of(alloc, &mut files) {
        Ok(config) => Ok(config),
        Err(_) => Err(Fail::from("refused")),
    }
}

#[test]
fn settings_of_stages(rt: HostRuntime) -> Result<(), Fail> {
    let config = config_read(rt.alloc())?;
    same(&rt, config.last_stage().name(), "statistic", "");
    let mut text = String::new(rt.alloc());
    for stage in stages() {
        push_stage(rt.alloc(), &mut text, &config, *stage)?;
    }
    same(&rt, text.as_str(), SETTINGS, "");
    Ok(())
}
